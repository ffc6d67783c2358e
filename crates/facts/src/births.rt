//! What gave a fact.
ghost use Rattle.facts.specs.Births.{numbers_of, reason};
ghost use Rattle.std.specs.Prelude.{◌≡◌, ◌≤◌, length};

/// The number of a fact: its place in the order of birth.
#[derive(Clone, Copy, Debug, PartialEq, Eq, PartialOrd, Ord, Hash)]
pub struct FactId(pub u32);

/// The older facts that give a fact, in the order in which the condition names them: two at most.
#[derive(Clone, Copy, PartialEq, Eq)]
pub enum Older {
    None,
    One(FactId),
    Two(FactId, FactId),
}

/// What gave a fact: a condition of the closure, from 1 to 14, older facts, and the place of a form, where the condition
/// has one, or of a list of what is apart, where it is of lists. There is one for each fact, so it is kept in 16 bytes.
#[derive(Clone, Copy, PartialEq, Eq)]
pub struct Birth {
    condition: u8,
    older_count: u8,
    has_form: bool,
    first: u32,
    second: u32,
    form: u32,
}

impl Birth {
    /// What these older facts give by the condition, and by the form, where there is one.
    #[tactic(auto, unfolding(crate::specs::Births::reason))]
    pub fn new(condition: u8, older: &[u32], form: Option<u32>) -> Birth
        requires { length older.now ≤ 2 }
        ensures { reason result ≡ record { condition = condition; older = older.now; form = form } }
    {
        let (older_count, first, second) = match *older {
            [] => (0, 0, 0),
            [first] => (1, first, 0),
            [first, second, ..] => (2, first, second),
        };
        Birth {
            condition,
            older_count,
            has_form: form.is_some(),
            first,
            second,
            form: form.unwrap_or(0),
        }
    }

    /// The condition.
    #[tactic(auto, unfolding(crate::specs::Births::reason))]
    pub fn condition(&self) -> u8
        ensures { result ≡ (reason self.now).condition }
    {
        self.condition
    }

    /// The older facts.
    #[tactic(auto, unfolding(crate::specs::Births::reason))]
    pub fn older(&self) -> Older
        ensures { numbers_of result ≡ (reason self.now).older }
    {
        match self.older_count {
            0 => Older::None,
            1 => Older::One(FactId(self.first)),
            _ => Older::Two(FactId(self.first), FactId(self.second)),
        }
    }

    /// The place of the form, or of the list, where there is one.
    #[tactic(auto, unfolding(crate::specs::Births::reason))]
    pub fn form(&self) -> Option<u32>
        ensures { result ≡ (reason self.now).form }
    {
        self.has_form.then_some(self.form)
    }
}
