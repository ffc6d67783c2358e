//! Scripts of what is done to a state.

/// What is done to a state of a problem.
#[derive(Clone, Copy)]
pub(super) enum Act {
    /// Adds the next so many forms and contexts of the problem, or those that are left.
    Extend(usize, usize),
    /// Adds its next so many lists of different individuals, or those that are left.
    Differ(usize),
    /// Serves one fact.
    Step,
    /// Runs to the end.
    Run,
    /// Runs with one fact fewer than there are in the end.
    Stop,
    /// Looks whether so many facts are served.
    Serves(usize),
    /// Looks whether there are so many facts.
    Has(usize),
}

/// All forms and contexts that a problem has.
pub(super) const ALL: Act = Act::Extend(100, 100);

/// All its lists.
pub(super) const ALL_LISTS: Act = Act::Differ(100);

pub(super) const AT_ONCE: &[Act] = &[ALL, ALL_LISTS, Act::Stop, Act::Run];

pub(super) const SCRIPTS: &[&[Act]] = &[
    AT_ONCE,
    &[
        Act::Extend(1, 1),
        Act::Run,
        Act::Differ(1),
        Act::Run,
        Act::Extend(1, 1),
        Act::Run,
        Act::Extend(1, 1),
        Act::Run,
        Act::Extend(1, 1),
        Act::Run,
        Act::Extend(1, 1),
        Act::Run,
        Act::Extend(1, 1),
        Act::Run,
    ],
    &[
        Act::Extend(0, 3),
        Act::Step,
        Act::Step,
        Act::Extend(2, 0),
        Act::Step,
        Act::Stop,
        Act::Extend(1, 1),
        Act::Run,
    ],
    &[
        Act::Step,
        ALL_LISTS,
        Act::Extend(100, 1),
        Act::Run,
        Act::Extend(0, 2),
        Act::Step,
        Act::Extend(0, 0),
        Act::Stop,
    ],
    &[Act::Extend(0, 100), Act::Run, Act::Extend(3, 0), Act::Run],
];
