//! Why a core or a tree could not be made.
use nm_edge::LayoutError;
use std::alloc::AllocError;
use thiserror::Error;

/// Why a core or a tree could not be made. If several reasons hold, the first of this order is
/// returned.
#[derive(Clone, Copy, Debug, PartialEq, Eq, Error)]
pub enum NewError {
    /// Fewer than 7 nodes, or more than there may be.
    #[error("nodes are fewer than 7, or too many")]
    Nodes,
    /// No worker, or more than 64.
    #[error("workers are not 1 to 64")]
    Workers,
    /// Out of memory.
    #[error("no memory")]
    NoMemory,
}

impl From<AllocError> for NewError {
    ghost use Rattle.std.specs.Prelude.{◌≡◌};
    ghost use Rattle.nm_model.specs.declared.new_error.NewError.TheVariants.{NoMemory};

    ghost from_gives = { λ _ e. e ≡ NoMemory };

    fn from(_: AllocError) -> NewError {
        NewError::NoMemory
    }
}

impl From<LayoutError> for NewError {
    ghost use Rattle.std.specs.Prelude.{◌≡◌, ◌≢◌, ◌↔◌};
    ghost use Rattle.nm_edge.specs.declared.layout.LayoutError.TheVariants as sizes;
    ghost use Rattle.nm_model.specs.declared.new_error.NewError.TheVariants.{Nodes, Workers, NoMemory};

    ghost from_gives = { λ error made. ((made ≡ Nodes) ↔ (error ≡ sizes.Nodes))
        × ((made ≡ Workers) ↔ (error ≡ sizes.Workers)) × (made ≢ NoMemory) };

    fn from(error: LayoutError) -> NewError {
        match error {
            LayoutError::Nodes => NewError::Nodes,
            LayoutError::Workers => NewError::Workers,
        }
    }
}
