//! What is proved of saturations.
ghost use Rattle.engine.specs.Saturations.{FinishedHasNonePending};

/// That as many facts of a sound saturation are served as there are says that none is pending.
pub fn finished_has_none_pending()
    ensures { FinishedHasNonePending }
{}
