//! The served facts that speak of a context, by number.
ghost use Rattle.indexes.specs.FactIndex.{IsFrom, IsIn, IsInto};
ghost use Rattle.saturate.specs.ServedFacts.{AreExactly, AreNumbersOf};
ghost use Rattle.std.specs.Prelude.{◌≡◌, length};

use crate::state::State;
use facts::Context;
use work_list::WorkList;

impl<W: WorkList> State<W> {
    /// The served facts that put a class into the context, in the order in which they were served. Needs no memory.
    pub fn classes_in(&self, context: Context) -> &[u32]
        ensures { AreExactly (IsIn context) self.now result.now }
    {
        self.queue.without_hand(self.index.classes_in(context))
    }

    /// The facts that put a class into the context, in the order in which they were served: all facts were. Needs no memory.
    pub fn all_classes_in(&self, context: Context) -> &[u32]
        requires { length self.now.served ≡ length self.now.facts }
        ensures { AreNumbersOf (IsIn context) self.now.facts result.now }
    {
        self.well_formed();
        self.classes_in(context)
    }

    /// The served edges from the context, in the order in which they were served. Needs no memory.
    pub fn edges_from(&self, context: Context) -> &[u32]
        ensures { AreExactly (IsFrom context) self.now result.now }
    {
        self.queue.without_hand(self.index.edges_from(context))
    }

    /// The edges from the context, in the order in which they were served: all facts were. Needs no memory.
    pub fn all_edges_from(&self, context: Context) -> &[u32]
        requires { length self.now.served ≡ length self.now.facts }
        ensures { AreNumbersOf (IsFrom context) self.now.facts result.now }
    {
        self.well_formed();
        self.edges_from(context)
    }

    /// The served edges into the context, in the order in which they were served. Needs no memory.
    pub fn edges_into(&self, context: Context) -> &[u32]
        ensures { AreExactly (IsInto context) self.now result.now }
    {
        self.queue.without_hand(self.index.edges_into(context))
    }
}
