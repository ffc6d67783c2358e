//! Places of lists in one piece of memory.
ghost use Rattle.std.specs.Prelude.{◌≡◌, ◌+◌, ◌-◌, ◌≤◌, ◌++◌, List, length, map, take, vec_len, vec_capacity};
ghost use Rattle.std.specs.Option.{ForSome};
ghost use Rattle.normalise.specs.Spans.{IsListAt};

use crate::member::Member;

/// From where and up to where a list stands.
#[derive(Clone, Copy)]
pub(crate) struct Span {
    pub(crate) start: usize,
    pub(crate) end: usize,
}

// Puts the list at the end, or its last member alone where all others are there.
pub(crate) fn place<T: Member>(members: &mut Vec<T>, shorter: Option<Span>, list: &[T]) -> Span
    requires many { 2 ≤ length list.now }
    requires room { vec_len members.old + length list.now ≤ vec_capacity members.old }
    requires there { ForSome shorter (λ s. IsListAt T.number members.old.items s (take (length list.now - 1) (map T.number list.now))) }
    ensures kept { (more : List T) × (members.new.items ≡ members.old.items ++ more) }
    ensures placed { IsListAt T.number members.new.items result (map T.number list.now) }
{
    if let Some(span) = shorter {
        if span.end == members.len() {
            members.push_reserved(list[list.len() - 1]);
            return Span {
                start: span.start,
                end: members.len(),
            };
        }
    }
    let start = members.len();
    members.extend_from_slice(list).unwrap();
    Span {
        start,
        end: members.len(),
    }
}
