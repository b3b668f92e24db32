//! IPv4 and IPv6 unicast.

use crate::octets::{leading_octets_number, leading_octets_wide};
use crate::unicast::{FamilyEncoding, Unicast};
use bgp_prefix::Ipv6;

const IPV4: FamilyEncoding = FamilyEncoding {
    afi: 1,
    own_fields: true,
    rib: 2,
    rib_add_path: 8,
};

const IPV6: FamilyEncoding = FamilyEncoding {
    afi: 2,
    own_fields: false,
    rib: 4,
    rib_add_path: 10,
};

impl Unicast for u32 {
    ghost use Rattle.std.specs.Prelude.{refl};
    ghost use Rattle.bgp_update.specs.Families.{ipv4};

    ghost family = { ipv4 };

    #[inline]
    fn of_octets(octets: &[u8]) -> u32 {
        leading_octets_number(octets)
    }

    #[inline(always)]
    fn encoding() -> FamilyEncoding {
        IPV4
    }

    ghost width_is = { refl };
}

impl Unicast for Ipv6 {
    ghost use Rattle.std.specs.Prelude.{refl};
    ghost use Rattle.bgp_update.specs.Families.{ipv6};

    ghost family = { ipv6 };

    #[inline]
    fn of_octets(octets: &[u8]) -> Ipv6 {
        Ipv6::new(leading_octets_wide(octets))
    }

    #[inline(always)]
    fn encoding() -> FamilyEncoding {
        IPV6
    }

    ghost width_is = { refl };
}
