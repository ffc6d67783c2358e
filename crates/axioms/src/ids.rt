//! Numbers of names and of expressions, each in a type of its own and below 2^32.
ghost use Rattle.std.specs.Prelude.{◌≡◌};

/// The number of a class name: `owl:Thing` is 0, `owl:Nothing` 1, the others follow by first place.
#[derive(Clone, Copy, Debug, PartialEq, Eq, PartialOrd, Ord, Hash)]
pub struct ClassId(pub u32);

impl ClassId {
    /// `owl:Thing`.
    pub const THING: ClassId = ClassId(0);

    /// `owl:Nothing`.
    pub const NOTHING: ClassId = ClassId(1);

    /// The number, as a place in a list.
    pub fn index(self) -> usize
        ensures { result ≡ self.0 }
    {
        let ClassId(number) = self;
        number as usize
    }
}

/// The number of an object property name, from 0, by first place.
#[derive(Clone, Copy, Debug, PartialEq, Eq, PartialOrd, Ord, Hash)]
pub struct PropId(pub u32);

impl PropId {
    /// The number, as a place in a list.
    pub fn index(self) -> usize
        ensures { result ≡ self.0 }
    {
        let PropId(number) = self;
        number as usize
    }
}

/// The number of an individual name, from 0, by first place.
#[derive(Clone, Copy, Debug, PartialEq, Eq, PartialOrd, Ord, Hash)]
pub struct IndId(pub u32);

impl IndId {
    /// The number, as a place in a list.
    pub fn index(self) -> usize
        ensures { result ≡ self.0 }
    {
        let IndId(number) = self;
        number as usize
    }
}

/// The number of a class expression: `owl:Thing` is 0, `owl:Nothing` 1, each part has a smaller number than the whole.
#[derive(Clone, Copy, Debug, PartialEq, Eq, PartialOrd, Ord, Hash)]
pub struct ExprId(pub u32);

impl ExprId {
    /// The class `owl:Thing`.
    pub const THING: ExprId = ExprId(0);

    /// The class `owl:Nothing`.
    pub const NOTHING: ExprId = ExprId(1);

    /// The number, as a place in a list.
    pub fn index(self) -> usize
        ensures { result ≡ self.0 }
    {
        let ExprId(number) = self;
        number as usize
    }
}
