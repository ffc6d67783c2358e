//! Whether the axioms of a session contradict one another.
ghost use Rattle.session.specs.Answers.{IsDecided};

use crate::session::Session;
use answers::what_follows;
use classification::is_consistent;

impl Session {
    /// Whether the axioms hold in some finite interpretation; none where facts are pending. It takes no memory.
    pub fn is_consistent(&self) -> Option<bool>
        ensures { IsDecided self.now result }
    {
        let indexed = self.indexed()?;
        self.well_formed();
        what_follows();
        Some(is_consistent(&indexed))
    }
}
