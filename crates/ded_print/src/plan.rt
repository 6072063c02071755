//! Plans.
ghost use Rattle.std.specs.Prelude.{◌≡◌, length};
ghost use Rattle.ded_io.specs.Causes.{HasCause};
ghost use Rattle.ded_io.specs.Devices.{AddsAll};
ghost use Rattle.ded_model.specs.PlanForm.{plan_form, plan_forms, scan};
ghost use Rattle.ded_print.specs.Counts.{raised_by};
ghost use Rattle.ded_print.specs.Depths.{levels};
ghost use Rattle.ded_print.specs.Gathering.{output, Puts};
ghost use Rattle.ded_print.specs.Lines.{lines_text};
ghost use Rattle.ded_print.specs.Numbers.{count_text};
ghost use Rattle.ded_print.specs.Nodes.{node_text, nodes, nodes_of};
ghost use Rattle.ded_print.specs.Plans.{later_slots_text, node_lines, part_lines, plan_atom_text, plan_text};
ghost use Rattle.ded_print.specs.Plans.{slots_text, sort_text};

use crate::count::Count;
use crate::depth::{Depth, put_indent};
use crate::gathered::Gathered;
use crate::naming::{SlotNames, SlotNumbers, name_bytes};
use crate::number::put_natural;
use crate::tuple::{atoms_of, put_atoms};
use ded_io::{Failed, Sink};
use ded_model::name::Name;
use ded_model::plan::Plan;
use ded_model::slot::{Slot, Slots, Sort};

/// Prints a plan, one node on a line with its parts below it.
///
/// # Errors
/// `Failed` only where the sink's count of faults rose.
pub fn print_plan<K: Sink>(plan: &Plan, sink: &mut K) -> Result<(), Failed>
    ensures bytes { AddsAll (K.contents sink.old) (K.contents sink.new) result (plan_text (plan_form plan.now)) }
    ensures cause { HasCause (K.faults sink.old) (K.faults sink.new) result }
{
    let mut gathered = Gathered::new();
    put_plan(plan, &mut gathered, sink);
    gathered.finish(sink)
}

/// Puts a plan: the count of its nodes, the nodes, and the end.
fn put_plan<K: Sink>(plan: &Plan, gathered: &mut Gathered, sink: &mut K)
    ensures { Puts
        (output (K.contents sink.old) (K.faults sink.old) gathered.old)
        (output (K.contents sink.new) (K.faults sink.new) gathered.new)
        (plan_text (plan_form plan.now)) }
{
    gathered.put(sink, b"plan ");
    put_count(plan, gathered, sink);
    gathered.put(sink, b"\n");
    put_node(plan, &Depth::Top, gathered, sink);
    gathered.put(sink, b"end\n");
}

/// Puts how many nodes the plan has, of more than 64 digits the last 64.
fn put_count<K: Sink>(plan: &Plan, gathered: &mut Gathered, sink: &mut K)
    ensures { Puts
        (output (K.contents sink.old) (K.faults sink.old) gathered.old)
        (output (K.contents sink.new) (K.faults sink.new) gathered.new)
        (count_text (length (node_lines 0 (plan_form plan.now)))) }
{
    let mut count = Count::new();
    count_nodes(plan, &mut count);
    count.put(gathered, sink);
}

/// Raises the count by the nodes of the plan.
#[cycle(nodes)]
fn count_nodes(plan: &Plan, count: &mut Count)
    ensures { count.new.digits.items ≡ raised_by (nodes (plan_form plan.now)) count.old.digits.items }
{
    count.raise();
    match plan {
        Plan::Scan(_, _) | Plan::Rows(_) => {}
        Plan::Join(parts) | Plan::Union(parts) => count_parts(parts, count),
        Plan::Minus(from, taken) => {
            count_nodes(from, count);
            count_nodes(taken, count);
        }
        Plan::Not(part) | Plan::Project(_, part) => count_nodes(part, count),
    }
}

/// Raises the count by the nodes of all parts.
#[cycle(nodes)]
fn count_parts(parts: &Vec<Plan>, count: &mut Count)
    ensures { count.new.digits.items ≡ raised_by (nodes_of (plan_forms parts.now.items)) count.old.digits.items }
{
    for part in parts {
        count_nodes(part, count);
    }
}

/// Puts the node on a line at the depth, and its parts one level deeper.
#[cycle(lines)]
fn put_node<K: Sink>(plan: &Plan, depth: &Depth<'_>, gathered: &mut Gathered, sink: &mut K)
    ensures { Puts
        (output (K.contents sink.old) (K.faults sink.old) gathered.old)
        (output (K.contents sink.new) (K.faults sink.new) gathered.new)
        (lines_text (node_lines (levels depth.now) (plan_form plan.now))) }
{
    put_indent(depth, gathered, sink);
    put_node_text(plan, gathered, sink);
    gathered.put(sink, b"\n");
    let below = Depth::Below(&*depth);
    match plan {
        Plan::Scan(_, _) => {}
        Plan::Rows(_) => {}
        Plan::Join(parts) | Plan::Union(parts) => put_parts(parts, &below, gathered, sink),
        Plan::Minus(from, taken) => {
            put_node(from, &below, gathered, sink);
            put_node(taken, &below, gathered, sink);
        }
        Plan::Not(part) | Plan::Project(_, part) => put_node(part, &below, gathered, sink),
    }
}

/// Puts each of the plans, whose nodes stand at the depth.
#[cycle(lines)]
fn put_parts<K: Sink>(parts: &Vec<Plan>, depth: &Depth<'_>, gathered: &mut Gathered, sink: &mut K)
    ensures { Puts
        (output (K.contents sink.old) (K.faults sink.old) gathered.old)
        (output (K.contents sink.new) (K.faults sink.new) gathered.new)
        (lines_text (part_lines (levels depth.now) (plan_forms parts.now.items))) }
{
    for part in parts {
        put_node(part, depth, gathered, sink);
    }
}

/// Puts what a node is, without its parts.
fn put_node_text<K: Sink>(plan: &Plan, gathered: &mut Gathered, sink: &mut K)
    ensures { Puts
        (output (K.contents sink.old) (K.faults sink.old) gathered.old)
        (output (K.contents sink.new) (K.faults sink.new) gathered.new)
        (node_text (plan_form plan.now)) }
{
    match plan {
        Plan::Scan(name, slots) => put_scan(name, slots, gathered, sink),
        Plan::Rows(tuple) => {
            gathered.put(sink, b"rows ");
            put_atoms(atoms_of(tuple), &SlotNumbers, gathered, sink);
        }
        Plan::Join(parts) => {
            gathered.put(sink, b"join ");
            put_natural(parts.len() as u64, gathered, sink);
        }
        Plan::Union(parts) => {
            gathered.put(sink, b"union ");
            put_natural(parts.len() as u64, gathered, sink);
        }
        Plan::Minus(_, _) => gathered.put(sink, b"minus"),
        Plan::Not(_) => gathered.put(sink, b"not"),
        Plan::Project(slot, _) => {
            gathered.put(sink, b"project ");
            SlotNumbers.put_name(*slot, gathered, sink);
            gathered.put(sink, sort_bytes(slot.sort));
        }
    }
}

/// What is written behind a slot of the sort: nothing where it is rational.
fn sort_bytes(sort: Sort) -> &'static [u8]
    ensures { result.now ≡ sort_text sort }
{
    match sort {
        Sort::Rat => b"",
        Sort::Text => b" text",
    }
}

/// Puts the scan of a relation: its name, and the slots in parentheses.
fn put_scan<K: Sink>(name: &Name, slots: &Slots, gathered: &mut Gathered, sink: &mut K)
    ensures { Puts
        (output (K.contents sink.old) (K.faults sink.old) gathered.old)
        (output (K.contents sink.new) (K.faults sink.new) gathered.new)
        (plan_atom_text (scan name.now slots.now)) }
{
    gathered.put(sink, b"scan ");
    gathered.put(sink, name_bytes(name));
    gathered.put(sink, b"(");
    put_slots(&slots.list, gathered, sink);
    gathered.put(sink, b")");
}

/// Puts the slots between commas.
fn put_slots<K: Sink>(slots: &[Slot], gathered: &mut Gathered, sink: &mut K)
    ensures { Puts
        (output (K.contents sink.old) (K.faults sink.old) gathered.old)
        (output (K.contents sink.new) (K.faults sink.new) gathered.new)
        (slots_text slots.now) }
{
    if let Some((first, later)) = slots.split_first() {
        SlotNumbers.put_name(*first, gathered, sink);
        put_later_slots(later, gathered, sink);
    }
}

/// Puts each slot after a comma and a blank.
fn put_later_slots<K: Sink>(slots: &[Slot], gathered: &mut Gathered, sink: &mut K)
    ensures { Puts
        (output (K.contents sink.old) (K.faults sink.old) gathered.old)
        (output (K.contents sink.new) (K.faults sink.new) gathered.new)
        (later_slots_text slots.now) }
{
    for slot in slots {
        gathered.put(sink, b", ");
        SlotNumbers.put_name(*slot, gathered, sink);
    }
}
