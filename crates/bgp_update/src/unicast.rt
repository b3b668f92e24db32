//! Families of unicast routes.

ghost use Rattle.std.specs.Prelude.{◌≡◌, ◌≤◌, length};
ghost use Rattle.std.specs.Int.{div_ceil};
ghost use Rattle.byteorder.specs.Endian.{big_number};
ghost use Rattle.bgp_update.specs.Families.{encoding_of};

use bgp_prefix::Family;

/// Where messages and RIB entries have the keys and next hops of a family.
#[derive(Clone, Copy)]
pub struct FamilyEncoding {
    /// Its number (RFC 4760, 3).
    pub afi: u16,
    /// Whether an UPDATE's own fields, withdrawn routes, NLRI and NEXT_HOP, are of this family (RFC 4271, 4.3).
    pub own_fields: bool,
    /// The subtype of its RIB records (RFC 6396, 4.3.2).
    pub rib: u16,
    /// The subtype of its RIB records with path identifiers (RFC 8050, 4).
    pub rib_add_path: u16,
}

/// A family of unicast routes: how messages and RIB entries have its keys and next hops, and how its addresses are
/// written.
pub trait Unicast: Family {
    ghost use Rattle.std.specs.Prelude.{◌≡◌};
    ghost use Rattle.bgp_update.specs.Families.{FamilyOf};

    /// The family, as definitions take it.
    ghost family: { FamilyOf };

    /// Returns the address whose leading bytes these are. The others are 0.
    fn of_octets(octets: &[u8]) -> Self
        requires { length octets.now ≤ div_ceil family.width 8 }
        ensures { Self.bits result ≡ big_number 16 octets.now };

    /// What the family has of its own.
    fn encoding() -> FamilyEncoding
        ensures { result ≡ encoding_of family };

    ghost width_is: { Self.Family.WIDTH ≡ family.width };
}
