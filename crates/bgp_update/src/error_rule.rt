//! What is done about damage (RFC 7606).

ghost use Rattle.std.specs.Prelude.{◌≡◌};
ghost use Rattle.bgp_update.specs.ErrorRules.{is_discarded, is_handling, is_of_external, rule_of_peer};

use crate::attribute_type::AttributeType;
use crate::kept_attribute::KeptAttribute;

/// What is done about a message or an entry that is damaged.
#[derive(Clone, Copy, Debug, PartialEq, Eq)]
pub enum ErrorRule {
    /// It changes no route.
    Skip,
    /// What a speaker does by RFC 7606 about a message of a peer of its own AS, and about an entry.
    Internal,
    /// The same about a message of a peer of another AS.
    External,
}

impl ErrorRule {
    /// Whether damage is handled, and not only skipped.
    #[inline(always)]
    pub fn is_handling(self) -> bool
        ensures { result ≡ is_handling self }
    {
        match self {
            ErrorRule::Skip => false,
            ErrorRule::Internal | ErrorRule::External => true,
        }
    }

    /// Returns the rule for messages of a peer of another AS than the speaker's, or of the same one.
    #[inline(always)]
    pub fn of_peer(self, is_external: bool) -> ErrorRule
        ensures { result ≡ rule_of_peer is_external self }
    {
        match self {
            ErrorRule::Skip => ErrorRule::Skip,
            ErrorRule::Internal | ErrorRule::External => if is_external {
                ErrorRule::External
            } else {
                ErrorRule::Internal
            },
        }
    }

    fn is_of_external(self) -> bool
        ensures { result ≡ is_of_external self }
    {
        match self {
            ErrorRule::External => true,
            ErrorRule::Skip | ErrorRule::Internal => false,
        }
    }

    /// Whether an attribute of this type with a malformed value counts as absent, and nothing more is done about it.
    pub(crate) fn discards(self, attribute_type: AttributeType) -> bool
        ensures { result ≡ is_discarded self attribute_type }
    {
        match attribute_type {
            AttributeType::AtomicAggregate | AttributeType::Aggregator => true,
            AttributeType::LocalPref
            | AttributeType::Kept(KeptAttribute::OriginatorId)
            | AttributeType::Kept(KeptAttribute::ClusterList) => self.is_of_external(),
            _ => false,
        }
    }
}
