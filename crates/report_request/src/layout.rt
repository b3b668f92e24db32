//! How lines are written.

ghost use Rattle.std.specs.Prelude.{◌≡◌};
ghost use Rattle.bgp_update.specs.KeptAttributes.{no_attributes};
ghost use Rattle.report_request.specs.declared.format.Format.TheVariants.{Text};

use crate::format::Format;
use bgp_update::{AttributeSet, FamilyMark, Unicast};
use ip_text::AddressForm;

/// How the lines of a report are written.
#[derive(Clone, Copy)]
#[derive_where(Debug, PartialEq, Eq)]
pub struct Layout<K = FamilyMark> {
    /// As text, or as JSON.
    pub format: Format,
    /// The form of the IPv6 addresses of peers.
    pub peer_addresses: AddressForm,
    /// The form of the IPv6 addresses of routes: of their prefixes and next hops.
    pub route_addresses: AddressForm,
    /// The family of the routes, by which their prefixes are written.
    #[derive_where(skip)]
    pub family: K,
    /// Further attributes of routes that have a column each.
    pub attributes: AttributeSet,
}

/// How the lines of a report on routes of a family are written.
pub type LayoutOf<F> = Layout<FamilyMark<F>>;

impl<F: Unicast> Layout<FamilyMark<F>> {
    /// Returns text with one form for all addresses, without further attributes.
    pub fn all(form: AddressForm) -> LayoutOf<F>
        ensures { result ≡ record {
          format = Text;
          peer_addresses = form;
          route_addresses = form;
          family = F.family;
          attributes = no_attributes;
        } }
    {
        Layout {
            format: Format::Text,
            peer_addresses: form,
            route_addresses: form,
            family: FamilyMark::new(),
            attributes: AttributeSet::none(),
        }
    }
}
