ghost use Rattle.std.specs.Prelude.{◌≡◌, ◌≢◌, ◌⊎◌, [], None, All, IfOk, OnOk, IfErr, IsOk, IsErrOf};
ghost use Rattle.std.specs.Result.{result_err};
ghost use Rattle.pgr_outside.specs.Faults.{NoneFell};
ghost use Rattle.pgr_words.specs.WellFormed.{IsWellFormed};
ghost use Rattle.pgr_answer.specs.Files.{files_of, IsKnownAccepted};
ghost use Rattle.pgr_answer.specs.Refusals.{RefusesCommand, IsFirstRefusal, AreAcceptedTogether};
ghost use Rattle.pgr_answer.specs.Together.{refusal_together};
ghost use Rattle.pgr_words.specs.Factors.{IsFactor};
ghost use Rattle.pgr_table.specs.Edges.{HasPlaces};
ghost use Rattle.pgr_answer.specs.Roles.{kind_of_edges};
ghost use Rattle.pgr_answer.specs.declared.role.Kind.TheVariants as kind;
ghost use Rattle.pgr_answer.specs.Allowed.{IsAllowed, AreNotesOver, AnswersCommand};
ghost use Rattle.pgr_answer.specs.declared.role.Role.{Role as ARole};
ghost use Rattle.pgr_answer.specs.declared.refused.Refused.{Refused as ARefused};

use crate::answered::{Answered, Note};
use crate::articulation_points::articulation_points_rows;
use crate::astar::astar_rows;
use crate::biconnected_components::biconnected_components_rows;
use crate::bridges::bridges_rows;
use crate::components::{connected_components_rows, strong_components_rows};
use crate::contraction::contraction_rows;
use crate::dijkstra::dijkstra_rows;
use crate::dijkstra_cost::dijkstra_cost_rows;
use crate::dijkstra_cost_matrix::dijkstra_cost_matrix_rows;
use crate::driving_distance::driving_distance_rows;
use crate::edmonds_karp::edmonds_karp_rows;
use crate::ksp::ksp_table_rows;
use crate::max_flow::max_flow_rows;
use crate::min_cut::min_cut_rows;
use crate::reading::read_tables;
use crate::refused::Refused;
use crate::role::Role;
use crate::tables::Tables;
use crate::trsp::trsp_rows;
use crate::with_points::with_points_rows;
use pgr_graph::restricted_sum;
use pgr_outside::{Listed, NoMemory, Store};
use pgr_rows::Rows;
use pgr_words::{Command, Function, fields_of_well_formed_commands_are_in_form};
use std::alloc::Global;

/// Returns the rows and notes that answer a well-formed command over the files of a store, or the first cause why there are
/// none.
///
/// The files that the command names are read and judged in the order of their [`Role`](crate::Role), each whole before the
/// next; a file that two options name is read twice. Then the restrictions are judged over the costs of the links.
/// See [`Refused`] for the causes. Rows come only where every file has a content, the known one where it is known, that is
/// an accepted table, and these tables are accepted together; they are allowed over these tables. Notes are those of
/// `pgr_aStar`: for each start of an asked pair whose estimate isn't consistent, by rising start, the first link that breaks
/// it. `Memory` may come at any call. Reading changes no content.
pub fn answer<S: Store>(
    alloc: Global,
    command: &Command,
    store: &mut S,
) -> Result<Answered, Refused>
    requires { IsWellFormed command.now }

    // The files have contents that are accepted, the known ones where they are known; over the tables that they are the rows are allowed, and the notes
    // are exactly those of the command.
    ensures allowed { IfOk result (λ answered. AnswersCommand command.now (S.content store.old) answered.rows answered.notes) }

    // A refusal holds, and the first one by known contents is the answer, unless a read failed or memory ran out.
    ensures refused { IfErr result (λ refused. refused ≢ Refused.Memory
        → RefusesCommand (S.content store.old) (S.faults store.old) (S.faults store.new) command.now refused) }
    ensures first { (refused : ARefused) → IsFirstRefusal (S.content store.old) command.now refused
        → IsErrOf result refused ⊎ IsErrOf result Refused.Memory ⊎ ((role : ARole) × IsErrOf result (Refused.ReadFailed role)) }
    ensures completes { All (IsKnownAccepted (S.content store.old)) (files_of command.now) → AreAcceptedTogether (S.content store.old) command.now
        → IsOk result ⊎ IsErrOf result Refused.Memory ⊎ ((role : ARole) × IsErrOf result (Refused.ReadFailed role)) }

    // What stays.
    ensures content { S.content store.new ≡ S.content store.old }
    ensures faults { NoneFell (S.faults store.old) (S.faults store.new) }
{
    let tables = read_tables(alloc, command, store)?;
    judge_together(command, &tables)?;
    fields_of_well_formed_commands_are_in_form();
    let mut notes = Vec::new(alloc);
    let rows = allowed_rows(alloc, command, &tables, &mut notes)?;
    Ok(Answered {
        rows,
        notes: Listed::from_vec(notes),
    })
}

/// The refusal of the tables of a command together, if they are refused: for restrictions that take the sum too far.
fn judge_together(command: &Command, tables: &Tables) -> Result<(), Refused>
    ensures { result_err result ≡ refusal_together command.now tables.now }
{
    match restricted_sum(&tables.edges, command.directed, &tables.restrictions) {
        Ok(()) => Ok(()),
        Err(fault) => Err(Refused::Table(Role::Restrictions, fault)),
    }
}

/// The rows that answer a command over its tables, which are accepted together; the notes, of which there are none, become
/// those that belong to them.
#[tactic(auto, using(crate::proofs::NoteLemmas::unnoted))]
fn allowed_rows(
    alloc: Global,
    command: &Command,
    tables: &Tables,
    notes: &mut Vec<Note>,
) -> Result<Rows, NoMemory>
    requires together { refusal_together command.now tables.now ≡ None }
    requires factor { IsFactor command.now.factor }
    requires places { kind_of_edges command.now.function ≡ kind.PlacedEdges → HasPlaces tables.now.edges }
    requires none { notes.old.items ≡ [] }
    ensures rows { IfOk result (IsAllowed command.now tables.now) }
    ensures notes { OnOk result (AreNotesOver command.now tables.now notes.new.items) }
{
    match command.function {
        Function::ConnectedComponents => connected_components_rows(alloc, tables),
        Function::StrongComponents => strong_components_rows(alloc, tables),
        Function::BiconnectedComponents => biconnected_components_rows(alloc, tables),
        Function::ArticulationPoints => articulation_points_rows(alloc, tables),
        Function::Bridges => bridges_rows(alloc, tables),
        Function::Dijkstra => dijkstra_rows(alloc, command, tables),
        Function::DijkstraCost => dijkstra_cost_rows(alloc, command, tables),
        Function::DijkstraCostMatrix => dijkstra_cost_matrix_rows(alloc, command, tables),
        Function::DrivingDistance => driving_distance_rows(alloc, command, tables),
        Function::WithPoints => with_points_rows(alloc, command, tables),
        Function::Trsp => trsp_rows(alloc, command, tables),
        Function::Ksp => ksp_table_rows(alloc, command, tables),
        Function::Contraction => contraction_rows(alloc, command, tables),
        Function::AStar => astar_rows(alloc, command, tables, notes),
        Function::MaxFlow => max_flow_rows(alloc, command, tables),
        Function::EdmondsKarp => edmonds_karp_rows(alloc, command, tables),
        Function::MinCut => min_cut_rows(alloc, command, tables),
    }
}
