//! The epochs of the spaces.

ghost use Rattle.std.specs.Prelude.{◌≡◌, ◌+◌, ◌<◌};
ghost use Rattle.shade_race.specs.History.{epoch_in, raised};

use shade_values::Space;

/// How often a barrier of workgroup memory and of storage memory was passed.
#[derive(Clone, Copy, Debug, PartialEq, Eq)]
pub struct Epochs {
    pub workgroup: u64,
    pub storage: u64,
}

/// The epoch of a space; one without barriers stays in its first.
pub(crate) fn epoch_in(space: Space, epochs: Epochs) -> u64
    ensures { result ≡ epoch_in space epochs }
{
    match space {
        Space::Workgroup => epochs.workgroup,
        Space::Storage => epochs.storage,
        Space::Function | Space::Private | Space::Uniform => 0,
    }
}

/// With a barrier of a space passed once more.
pub(crate) fn raised(space: Space, epochs: Epochs) -> Epochs
    requires { epoch_in space epochs < 18446744073709551615 }
    ensures { result ≡ raised space epochs }
{
    match space {
        Space::Workgroup => Epochs {
            workgroup: epochs.workgroup + 1,
            storage: epochs.storage,
        },
        Space::Storage => Epochs {
            workgroup: epochs.workgroup,
            storage: epochs.storage + 1,
        },
        Space::Function | Space::Private | Space::Uniform => epochs,
    }
}
