//! The places that labels name.

ghost use Rattle.std.specs.Prelude.{
  ◌≡◌,
  ◌≢◌,
  ℕ,
  List,
  [],
  Some,
  None,
  not,
  is_some,
  map,
  option_map,
  bytes_eq,
  IfOk,
  IfErr,
  OnOk,
};
ghost use Rattle.std.specs.Map.{update};
ghost use Rattle.gw_text.specs.declared.refusal.AsmRefusal.{AsmRefusal as Refusal};
ghost use Rattle.gw_text.specs.Assembly.{defined_again, label_twice};
ghost use Rattle.gw_text.specs.Sources.{Places, label_view, place_in};

use crate::refusal::AsmRefusal;
use crate::source::Label;
use std::alloc::{AllocError, Global};
use std::collections::BTreeMap;

/// The place of each label by its name. Refusals: 44, of the first label with the name of an earlier one, and 49.
pub fn places<'a>(
    alloc: Global,
    labels: &[Label<'a>],
) -> Result<BTreeMap<&'a [u8], usize>, AsmRefusal>
    ensures once { OnOk result (defined_again [] (map label_view labels.now) ≡ None) }
    ensures places { IfOk result (λ places. Places places (map label_view labels.now)) }
    ensures refused { IfErr result (λ e. e ≢ Refusal.OutOfMemory
        → option_map label_twice (defined_again [] (map label_view labels.now)) ≡ Some e) }
{
    let mut places = BTreeMap::new(alloc);
    for label in labels {
        if !add(&mut places, *label)? {
            return Err(AsmRefusal::LabelTwice { line: label.line });
        }
    }
    Ok(places)
}

/// Adds a label, or answers false for a name that is there.
fn add<'a>(places: &mut BTreeMap<&'a [u8], usize>, label: Label<'a>) -> Result<bool, AllocError>
    ensures new { IfOk result (λ new. is_some (place_in places.old label.entry.name.now) ≡ not new) }
    ensures added { IfOk result (λ new. (name : List ℕ) →
        place_in places.new name ≡ update bytes_eq (place_in places.old) label.entry.name.now (Some label.entry.place) name) }
{
    Ok(places.insert(label.name, label.place)?.is_none())
}

/// The place of a label.
pub fn place_of(places: &BTreeMap<&[u8], usize>, name: &[u8]) -> Option<usize>
    ensures { result ≡ place_in places.now name.now }
{
    places.get(name).copied()
}
