//! Names in angle brackets in a text.
ghost use Rattle.short_names.specs.Found.{IsCut, Stays};
ghost use Rattle.std.specs.Prelude.{◌<◌, IfNone, IfSome, length};

use memchr::memchr;

/// The first name of a text, what stands before it and what behind it.
#[derive(Clone, Copy)]
pub(crate) struct Cut<'t> {
    pub(crate) front: &'t [u8],
    pub(crate) inside: &'t [u8],
    pub(crate) behind: &'t [u8],
}

/// The first name in angle brackets; none where there is no `<`, or no `>` behind the first.
pub(crate) fn first_name(text: &[u8]) -> Option<Cut<'_>>
    ensures some { IfSome result (λ c. IsCut text.now c.front.now c.inside.now c.behind.now) }
    ensures less { IfSome result (λ c. length c.behind.now < length text.now) }
    ensures none { IfNone result (Stays text.now) }
{
    let opening = memchr(b'<', text)?;
    let rest = &text[opening + 1..];
    let closing = memchr(b'>', rest)?;
    Some(Cut {
        front: &text[..opening],
        inside: &rest[..closing],
        behind: &rest[closing + 1..],
    })
}
