//! Laws of the definitions in `specs/`, each proved as the contract of a function that does nothing.

ghost use Rattle.std.specs.Prelude.{◌≡◌};
ghost use Rattle.desk_text.specs.Code.{code_cmp};
ghost use Rattle.desk_model.specs.Lists.{line_key, line_key_cmp, member_key, member_key_cmp, shipment_key, shipment_key_cmp};
ghost use Rattle.desk_model.specs.Laws.{BaseSubstances};

use crate::{
    CandidateRow, ExemptionRow, LineRow, MaterialRow, MemberRow, PartRow, ProductRow, ShipmentRow,
    SubstanceRow, TicketRow,
};
use desk_rows::Keyed;
use desk_text::{Bytes, Code};

/// Each row has its table's key, and the keys are in the tables' order.
pub fn rows_have_their_keys()
    ensures substance { ⟦<SubstanceRow as Keyed>⟧.key ≡ (λ row. row.code) }
    ensures member { ⟦<MemberRow as Keyed>⟧.key ≡ member_key }
    ensures material { ⟦<MaterialRow as Keyed>⟧.key ≡ (λ row. row.code) }
    ensures part { ⟦<PartRow as Keyed>⟧.key ≡ (λ row. row.code) }
    ensures line { ⟦<LineRow as Keyed>⟧.key ≡ line_key }
    ensures product { ⟦<ProductRow as Keyed>⟧.key ≡ (λ row. row.part) }
    ensures exemption { ⟦<ExemptionRow as Keyed>⟧.key ≡ (λ row. row.terms.row) }
    ensures candidate { ⟦<CandidateRow as Keyed>⟧.key ≡ (λ row. row.substance) }
    ensures shipment { ⟦<ShipmentRow as Keyed>⟧.key ≡ shipment_key }
    ensures ticket { ⟦<TicketRow as Keyed>⟧.key ≡ (λ row. row.code) }
    ensures codes { ⟦<Code as Ord>⟧.cmp ≡ code_cmp }
    ensures members { ⟦<(Code, u8) as Ord>⟧.cmp ≡ member_key_cmp }
    ensures lines { ⟦<(Code, Code) as Ord>⟧.cmp ≡ line_key_cmp }
    ensures shipments { ⟦<(u16, Code) as Ord>⟧.cmp ≡ shipment_key_cmp }
    ensures tickets { ⟦<Bytes as Ord>⟧.cmp ≡ code_cmp }
{}

/// The substances of the start tables are those that have a rule's code, each a member of its own rule.
pub fn base_substances_are_those_of_rules()
    ensures { BaseSubstances }
{}
