//! Laws about the definitions: nothing is computed.

ghost use Rattle.std.specs.Prelude.{◌≡◌, ◌↔◌, ℕ, true, List, []};
ghost use Rattle.std.specs.List.{list_all};
ghost use Rattle.route_choice.specs.declared.path_mask.PathStep.{PathStep};
ghost use Rattle.route_choice.specs.Masks.{MaskMatches, is_any_number, mask_matches};

/// A mask matches positions exactly if they are pieces that its steps match in turn. No position, as an empty path
/// has it, is matched by `*` alone and what is made of it, and by the empty mask.
pub fn masks_match_by_their_steps()
    ensures steps { (mask : List PathStep) (whole : List (List ℕ)) →
        (mask_matches mask whole ≡ true) ↔ MaskMatches mask whole }
    ensures empty { (mask : List PathStep) → mask_matches mask [] ≡ list_all is_any_number mask }
{}
