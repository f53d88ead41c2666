ghost use Rattle.commit.specs.Updates.{CommitsAreUpdates, RemovalsAreUpdates};

/// What a power cut leaves of a commit, and of a removal.
pub fn laws()
    ensures commits { CommitsAreUpdates }
    ensures removals { RemovalsAreUpdates }
{}
