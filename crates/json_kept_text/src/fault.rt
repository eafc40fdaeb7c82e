//! Why nothing is merged into a kept text.

use json_merge_text::MergeTextFault;
use thiserror::Error;

/// Why nothing is merged into a kept text.
#[derive(Debug, Drop, Error)]
pub enum MergeLimitFault {
    /// The new text would be longer than the limits let it.
    #[error("the text would be too long")]
    TooLong,
    /// The patch's text isn't read, or nests deeper than the limits say, or memory ran out.
    #[error("{0}")]
    Merge(MergeTextFault),
}

impl From<MergeTextFault> for MergeLimitFault {
    ghost use Rattle.std.specs.Prelude.{◌≡◌};
    ghost use Rattle.json_kept_text.specs.declared.fault.MergeLimitFault.TheVariants.{Merge};

    ghost from_gives = { λ error fault. fault ≡ Merge error };

    fn from(error: MergeTextFault) -> MergeLimitFault {
        MergeLimitFault::Merge(error)
    }
}
