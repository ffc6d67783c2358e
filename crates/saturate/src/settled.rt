//! Numbers that are served and settled, in a list that copies share.
ghost use Rattle.std.specs.Prelude.{◌≡◌, ◌<◌, ◌^◌, ◌+◌, ◌++◌, [], false, length, true, IfErr, IfOk};
ghost use Rattle.saturate.specs.Flags.{asked, is_flagged, kept};
ghost use Rattle.saturate.specs.Settling.{AreAllOnce, AreEachOnce, TakesOut};

use crate::flags::Flags;
use axioms::Memory;
use number_sets::Row;
use std::alloc::Global;
use std::marker::Model;
use std::rc::Rc;

/// All numbers below a bound, each once, in some order, but for those that are gone. Copies have the numbers in the same piece of memory,
/// and a bit for each that tells whether it is gone.
#[derive(Drop)]
pub(crate) struct Settled {
    numbers: Rc<Vec<u32>>,
    gone: Row,
    left: usize,
}

impl Model for Settled {
    ghost use Rattle.std.specs.Prelude.{List, ℕ};
    ghost use Rattle.saturate.specs.Flags.{kept};
    ghost use Rattle.saturate.specs.Settling.{IsSettled};

    ghost Value = { List ℕ };

    ghost view = { λ s. kept s.gone s.numbers.value.items };

    ghost invariant = { λ s. IsSettled s.numbers.value.items s.gone s.left };
}

/// Makes the numbers such that others may have them too. Gives them back where memory is refused.
fn shared(alloc: Global, numbers: Vec<u32>) -> Result<Rc<Vec<u32>>, Vec<u32>>
    ensures ok { IfOk result (λ shared. shared.value ≡ numbers) }
    ensures err { IfErr result (λ back. back ≡ numbers) }
{
    match Rc::new(alloc, numbers) {
        Ok(shared) => Ok(shared),
        Err(failed) => Err(failed.value),
    }
}

/// Those of the numbers that are not gone, in a list with that much room.
fn left_of(alloc: Global, numbers: &[u32], gone: &Row, room: usize) -> Result<Vec<u32>, Memory>
    ensures { IfOk result (λ left. left.items ≡ kept gone.now numbers.now) }
{
    let mut left = Vec::with_capacity(alloc, room)?;
    for number in numbers {
        if !gone.contains(*number as usize) {
            left.push(*number)?;
        }
    }
    Ok(left)
}

/// Whether the number has a bit, and is not gone.
fn is_left(gone: &Row, number: u32) -> bool
    ensures yes { result ≡ true → (number < length gone.now) × (is_flagged gone.now number ≡ false) }
    ensures no { result ≡ false → number < length gone.now → is_flagged gone.now number ≡ true }
{
    (number as usize) < gone.len() && !gone.contains(number as usize)
}

/// Those of the numbers go that have a bit and are not gone. Tells which these are, each once.
fn take_out(alloc: Global, gone: &mut Row, numbers: &[u32]) -> Result<Vec<u32>, Memory>
    ensures { IfOk result (λ out. TakesOut numbers.now gone.old gone.new out.items) }
{
    let mut out = Vec::new(alloc);
    for number in numbers {
        if is_left(gone, *number) {
            out.push(*number)?;
            gone.put(*number as usize);
        }
    }
    Ok(out)
}

impl Settled {
    /// No numbers.
    pub(crate) fn new(alloc: Global) -> Result<Settled, Memory>
        ensures { IfOk result (λ none. none ≡ []) }
    {
        let numbers = Rc::new(alloc, Vec::new(alloc))?;
        let gone = Row::new(alloc, 0)?;
        Ok(Settled {
            numbers,
            gone,
            left: 0,
        })
    }

    /// The same numbers, in the same piece of memory.
    pub(crate) fn copy(&self, alloc: Global) -> Result<Settled, Memory>
        ensures { IfOk result (λ copy. copy ≡ self.now) }
    {
        let numbers = self.numbers.clone()?;
        let gone = self.gone.copy(alloc)?;
        Ok(Settled {
            numbers,
            gone,
            left: self.left,
        })
    }

    /// How many numbers there are.
    pub(crate) fn len(&self) -> usize
        ensures { result ≡ length self.now }
    {
        self.left
    }

    /// A list of these numbers and then of those.
    pub(crate) fn followed_by(&self, alloc: Global, more: &[u32]) -> Result<Vec<u32>, Memory>
        ensures { IfOk result (λ all. all.items ≡ self.now ++ more.now) }
    {
        let room = self.left.saturating_add(more.len());
        let mut all = left_of(alloc, self.numbers.as_ref(), &self.gone, room)?;
        all.extend_from_slice(more)?;
        Ok(all)
    }

    /// These numbers and then those, where others may have them too. Copies none where there are none of these. Gives those back where
    /// memory is refused.
    fn shared_with(&self, alloc: Global, more: Vec<u32>) -> Result<Rc<Vec<u32>>, Vec<u32>>
        ensures ok { IfOk result (λ all. all.value.items ≡ self.now ++ more.items) }
        ensures err { IfErr result (λ back. back ≡ more) }
    {
        if self.len() == 0 {
            return shared(alloc, more);
        }
        let Ok(all) = self.followed_by(alloc, &more) else {
            return Err(more);
        };
        match shared(alloc, all) {
            Ok(all) => Ok(all),
            Err(_) => Err(more),
        }
    }

    /// These numbers and then those, which are all numbers below a bound, each once. Gives those back where memory is refused.
    pub(crate) fn with(&self, alloc: Global, more: Vec<u32>) -> Result<Settled, Vec<u32>>
        requires all { AreAllOnce (self.now ++ more.items) }
        requires few { length self.now + length more.items < 2 ^ 32 }
        ensures ok { IfOk result (λ all. all ≡ self.now ++ more.items) }
        ensures err { IfErr result (λ back. back ≡ more) }
    {
        let left = self.len() + more.len();
        let Ok(gone) = Row::new(alloc, left) else {
            return Err(more);
        };
        let numbers = self.shared_with(alloc, more)?;
        Ok(Settled {
            numbers,
            gone,
            left,
        })
    }

    /// Those of the numbers that are not flagged, and a list of those that are.
    pub(crate) fn parted(&self, alloc: Global, flags: &Flags) -> Result<(Settled, Vec<u32>), Memory>
        ensures kept { IfOk result (λ parts. parts.0 ≡ kept flags.now self.now) }
        ensures asked { IfOk result (λ parts. AreEachOnce parts.1.items (asked flags.now self.now)) }
    {
        let numbers = self.numbers.clone()?;
        let mut gone = self.gone.copy(alloc)?;
        let out = take_out(alloc, &mut gone, flags.numbers())?;
        let settled = Settled {
            numbers,
            gone,
            left: self.left - out.len(),
        };
        Ok((settled, out))
    }
}
