//! Path attributes that a route keeps where they are asked for: a row each.

ghost use Rattle.std.specs.Prelude.{◌≡◌, ◌<◌, ◌⊎◌, true};
ghost use Rattle.bgp_update.specs.declared.kept_attribute.KeptAttribute.{KeptAttribute as Attribute};
ghost use Rattle.bgp_update.specs.KeptAttributes as kept;
ghost use Rattle.bgp_update.specs.KeptAttributes.{kept_form, has, is_kept_value};

/// A path attribute that a route keeps where it is asked for, in the order of columns.
#[derive(Clone, Copy, Debug, PartialEq, Eq)]
pub enum KeptAttribute {
    /// COMMUNITIES (RFC 1997).
    Communities,
    /// EXTENDED COMMUNITIES (RFC 4360).
    ExtendedCommunities,
    /// LARGE_COMMUNITY (RFC 8092).
    LargeCommunities,
    /// ORIGINATOR_ID (RFC 4456, 8).
    OriginatorId,
    /// CLUSTER_LIST (RFC 4456, 8).
    ClusterList,
    /// Only to Customer (RFC 9234, 5).
    OnlyToCustomer,
}

/// What is known of a kept attribute.
#[derive(Clone, Copy)]
struct KeptForm {
    /// Its type code.
    code: u8,
    /// How many bytes each of its members has.
    size: usize,
    /// Whether it has any number of members but none, and else a single one.
    is_list: bool,
    /// Its bit in a set.
    bit: u8,
}

impl KeptAttribute {
    /// All of them.
    pub const ALL: [KeptAttribute; 6] = [
        KeptAttribute::Communities,
        KeptAttribute::ExtendedCommunities,
        KeptAttribute::LargeCommunities,
        KeptAttribute::OriginatorId,
        KeptAttribute::ClusterList,
        KeptAttribute::OnlyToCustomer,
    ];

    /// The table: a row each.
    fn form(self) -> KeptForm
        ensures { result ≡ kept_form self }
    {
        let (code, size, is_list, bit) = match self {
            KeptAttribute::Communities => (8, 4, true, 1),
            KeptAttribute::ExtendedCommunities => (16, 8, true, 2),
            KeptAttribute::LargeCommunities => (32, 12, true, 4),
            KeptAttribute::OriginatorId => (9, 4, false, 8),
            KeptAttribute::ClusterList => (10, 4, true, 16),
            KeptAttribute::OnlyToCustomer => (35, 4, false, 32),
        };
        KeptForm {
            code,
            size,
            is_list,
            bit,
        }
    }

    /// Its number in the order of columns.
    pub(crate) fn index(self) -> usize
        ensures index { result ≡ kept.kept_index self }
        ensures few { result < 6 }
    {
        match self {
            KeptAttribute::Communities => 0,
            KeptAttribute::ExtendedCommunities => 1,
            KeptAttribute::LargeCommunities => 2,
            KeptAttribute::OriginatorId => 3,
            KeptAttribute::ClusterList => 4,
            KeptAttribute::OnlyToCustomer => 5,
        }
    }

    /// Its type code.
    pub fn code(self) -> u8
        ensures { result ≡ kept.kept_code self }
    {
        self.form().code
    }

    /// How many bytes each of its members has.
    pub fn member_size(self) -> usize
        ensures { result ≡ (kept_form self).size }
    {
        self.form().size
    }

    /// Returns the attribute of a type code, if it is one of these.
    pub(crate) fn of_code(code: u8) -> Option<KeptAttribute>
        ensures { result ≡ kept.kept_of code }
    {
        match code {
            8 => Some(KeptAttribute::Communities),
            16 => Some(KeptAttribute::ExtendedCommunities),
            32 => Some(KeptAttribute::LargeCommunities),
            9 => Some(KeptAttribute::OriginatorId),
            10 => Some(KeptAttribute::ClusterList),
            35 => Some(KeptAttribute::OnlyToCustomer),
            _ => None,
        }
    }

    /// Whether a value has its form: one member, or any number but none.
    pub(crate) fn is_formed(self, value: &[u8]) -> bool
        ensures { result ≡ is_kept_value self value.now }
    {
        let form = self.form();
        if form.is_list {
            !value.is_empty() && value.len() % form.size == 0
        } else {
            value.len() == form.size
        }
    }
}

/// A set of kept attributes.
#[derive(Clone, Copy, Debug, PartialEq, Eq)]
pub struct AttributeSet {
    bits: u8,
}

impl AttributeSet {
    /// Returns the set of none.
    pub fn none() -> AttributeSet
        ensures { result ≡ kept.no_attributes }
    {
        AttributeSet { bits: 0 }
    }

    /// Returns the set of all.
    pub fn all() -> AttributeSet
        ensures { (a : Attribute) → has result a ≡ true }
    {
        AttributeSet { bits: 63 }
    }

    /// Returns the set with an attribute more, if it isn't in it.
    pub fn with(self, attribute: KeptAttribute) -> AttributeSet
        ensures has { has result attribute ≡ true }
        ensures others { (a : Attribute) → kept.kept_index a ≡ kept.kept_index attribute ⊎ (has result a ≡ has self a) }
    {
        if self.has(attribute) {
            return self;
        }
        AttributeSet {
            bits: self.bits + attribute.form().bit,
        }
    }

    /// Whether it has an attribute.
    pub fn has(self, attribute: KeptAttribute) -> bool
        ensures { result ≡ has self attribute }
    {
        self.bits / attribute.form().bit % 2 == 1
    }

    /// The set as a number: a bit for each attribute.
    #[inline(always)]
    pub(crate) fn bits(self) -> u8
        ensures { result ≡ self.bits }
    {
        self.bits
    }

    /// Returns the set of this number.
    #[inline(always)]
    pub(crate) fn of_bits(bits: u8) -> AttributeSet
        ensures { result.bits ≡ bits }
    {
        AttributeSet { bits }
    }

    /// Whether it has none.
    #[inline(always)]
    pub fn is_empty(self) -> bool
        ensures { result ≡ kept.is_empty self }
    {
        self.bits == 0
    }
}
