//! Laws of the bridge, each proved as the contract of a function that does nothing.

ghost use Rattle.desk_bridge.specs.AfterEdit.{EditsArePrepared};
ghost use Rattle.desk_bridge.specs.Laws.{BillsAgree, BillsStay, BillsTake, CyclesAreTold};
ghost use Rattle.desk_bridge.specs.LookUps.{BridgesByLookUp};
ghost use Rattle.desk_bridge.specs.NewNodes.{NodesAreAdded};
ghost use Rattle.desk_bridge.specs.Numbers.{EditsKeepValues, NumbersServe};
ghost use Rattle.desk_bridge.specs.Order.{FindingsAreOrdered};
ghost use Rattle.desk_bridge.specs.Plans.{RowsPlansStand};
ghost use Rattle.desk_bridge.specs.Refusals.{PartsRefuse};
ghost use Rattle.desk_bridge.specs.RollUps.{RollUpsAgree};
ghost use Rattle.desk_bridge.specs.Values.{RefusalsAgree, StartIsPrepared, ValuesTell};
ghost use Rattle.desk_bridge.specs.Years.{EntriesStay, YearsAgree};

/// A bill of tables has a node for each of their codes, reaches what they reach by the same chains, and has as many lines.
pub fn bills_agree()
    ensures { BillsAgree }
{}

/// The bill stays that of the tables when an edit that passes the refusals 1 to 20 is entered.
pub fn bills_stay()
    ensures { BillsStay }
{}

/// A line that passes the refusals 1 to 19 is refused by the bill where refusal 20 refuses it, with the same chain.
pub fn cycles_are_told()
    ensures { CyclesAreTold }
{}

/// An edit that passes the refusals 1 to 19 can be taken by the bill of the tables, which stays theirs, or closes a cycle there as refusal 20 says.
pub fn bills_take()
    ensures { BillsTake }
{}

/// A bill is that of tables where the look-ups of lines agree.
pub fn bridges_by_look_up()
    ensures { BridgesByLookUp }
{}

/// The bill with a node for each new code is that of the tables after the edit.
pub fn nodes_are_added()
    ensures { NodesAreAdded }
{}

/// What rolls up in the bill is what rolls up in the tables: masses, loads, findings and the chains to them.
pub fn roll_ups_agree()
    ensures { RollUpsAgree }
{}

/// With new own values of the affected nodes, but for assemblies whose lines stay, the roll-ups may be prepared after an edit.
pub fn edits_are_prepared()
    ensures { EditsArePrepared }
{}

/// The rules on sums are broken where the roll-ups tell it, by the same part.
pub fn refusals_agree()
    ensures { RefusalsAgree }
{}

/// The kept values of a node are those of its code.
pub fn values_tell()
    ensures { ValuesTell }
{}

/// From nothing the roll-ups may be prepared with the own values of all nodes.
pub fn start_is_prepared()
    ensures { StartIsPrepared }
{}

/// Findings have different numbers, and keep them where the lists of nodes and substances grow.
pub fn numbers_serve()
    ensures { NumbersServe }
{}

/// After an edit, with new own values of the nodes that it affects, but for assemblies whose lines stay, the own values of all nodes are
/// right.
pub fn edits_keep_values()
    ensures { EditsKeepValues }
{}

/// An entry for each shipment, with what one unit of its product weighs, makes years with the shipments' units and sums.
pub fn years_agree()
    ensures { YearsAgree }
{}

/// An edit changes the entries as it changes the shipments and what their products weigh.
pub fn entries_stay()
    ensures { EntriesStay }
{}

/// The refusals 20 to 23 say what the parts tell: the chain of a cycle, the first node that is too large, too many marks, or the first year
/// that is too heavy.
pub fn parts_refuse()
    ensures { PartsRefuse }
{}

/// A plan of an edit's rows, where the bill refuses nothing, is the plan of the edit.
pub fn rows_plans_stand()
    ensures { RowsPlansStand }
{}

/// Just the findings of a part, in the order of answers, are the list that answers tell.
pub fn findings_are_ordered()
    ensures { FindingsAreOrdered }
{}
