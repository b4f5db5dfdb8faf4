ghost use Rattle.std.specs.Prelude.{◌≡◌, ℕ, IfOk, OnOk, length};
ghost use Rattle.pgr_contract.specs.Run.{IsPhase, IsRun, times_over};
ghost use Rattle.pgr_contract.specs.State.{first_state};
ghost use Rattle.pgr_contract.specs.Running.{IsNextIn, IsNoted, IsRunning, IsStepOrEnd, IsTask, now_of};
ghost use Rattle.pgr_contract.specs.Ways.{AreLow, AreSmall};

use crate::candidates::{add_beside, candidates_of, next_of};
use crate::event::Event;
use crate::found::take;
use crate::ways::{Ways, ways_of};
use pgr_outside::NoMemory;
use pgr_walks::NamedLink;
use pgr_words::Method;
use std::alloc::Global;
use std::collections::BTreeSet;

/// What is contracted: the links, and the vertices that stay.
#[derive(Drop)]
pub(crate) struct Task<'a> {
    /// The links.
    pub links: &'a [NamedLink],
    /// Whether a link leads one way.
    pub directed: bool,
    /// The vertices that don't go, in any order.
    pub forbidden: &'a [i64],
    /// The same as a set.
    pub barred: BTreeSet<i64>,
}

/// A contraction as it runs.
#[derive(Drop)]
pub(crate) struct Shrinking {
    /// The least costs of the links that are left.
    pub ways: Ways,
    /// The steps so far.
    pub events: Vec<Event>,
    /// Vertices that may be dead ends: all that are and may go, and maybe others.
    pub dead_ends: BTreeSet<i64>,
    /// Vertices that may be linear.
    pub linears: BTreeSet<i64>,
}

impl Shrinking {
    /// A contraction that has done no step.
    pub(crate) fn start(alloc: Global, task: &Task) -> Result<Shrinking, NoMemory>
        requires { IsTask task.now }
        ensures running { IfOk result (IsRunning task.now) }
        ensures first { IfOk result (λ shrinking. now_of task.now shrinking ≡ first_state task.now.links.now) }
    {
        let ways = ways_of(alloc, task.links)?;
        let dead_ends = candidates_of(alloc, task.links, &task.barred)?;
        let linears = candidates_of(alloc, task.links, &task.barred)?;
        Ok(Shrinking {
            ways,
            events: Vec::new(alloc),
            dead_ends,
            linears,
        })
    }

    /// The next step of the method, whose vertex is no candidate any more.
    fn next(&mut self, method: Method) -> Option<Event>
        requires low { AreLow self.old.ways }
        requires small { AreSmall self.old.ways }
        ensures { IsNextIn method self.old self.new result }
    {
        match method {
            Method::DeadEnd => next_of(&self.ways, &mut self.dead_ends, method),
            Method::Linear => next_of(&self.ways, &mut self.linears, method),
        }
    }

    /// Notes a step: the links, the candidates and the log.
    fn note(&mut self, task: &Task, event: Event) -> Result<(), NoMemory>
        ensures { OnOk result (IsNoted task.now event self.old self.new) }
    {
        take(&mut self.ways, event)?;
        add_beside(&mut self.dead_ends, &task.barred, event)?;
        add_beside(&mut self.linears, &task.barred, event)?;
        self.events.push(event)?;
        Ok(())
    }

    /// Does the next step of the method, and says whether there was one.
    fn step(&mut self, task: &Task, method: Method) -> Result<bool, NoMemory>
        requires task { IsTask task.now }
        requires running { IsRunning task.now self.old }
        ensures running { OnOk result (IsRunning task.now self.new) }
        ensures step { IfOk result
            (IsStepOrEnd task.now.directed method task.now.forbidden.now (now_of task.now self.old) (now_of task.now self.new)) }
    {
        let Some(event) = self.next(method) else {
            return Ok(false);
        };
        self.note(task, event)?;
        Ok(true)
    }

    /// Does the steps of the method until there is none.
    fn run_phase(&mut self, task: &Task, method: Method) -> Result<(), NoMemory>
        requires task { IsTask task.now }
        requires running { IsRunning task.now self.old }
        ensures running { OnOk result (IsRunning task.now self.new) }
        ensures phase { OnOk result
            (IsPhase task.now.directed method task.now.forbidden.now (now_of task.now self.old) (now_of task.now self.new)) }
    {
        'steps: loop {
            let done = self.step(task, method)?;
            if !done {
                return Ok(());
            }
        }
    }

    /// Does a phase for each of the methods, in order.
    fn run_order(&mut self, task: &Task, order: &[Method]) -> Result<(), NoMemory>
        requires task { IsTask task.now }
        requires running { IsRunning task.now self.old }
        ensures running { OnOk result (IsRunning task.now self.new) }
        ensures run { OnOk result
            (IsRun task.now.directed task.now.forbidden.now order.now (now_of task.now self.old) (now_of task.now self.new)) }
    {
        for method in order {
            self.run_phase(task, *method)?;
        }
        Ok(())
    }

    /// Does the phases of the order, so many times over.
    pub(crate) fn run(&mut self, task: &Task, order: &[Method], cycles: u32) -> Result<(), NoMemory>
        requires task { IsTask task.now }
        requires running { IsRunning task.now self.old }
        ensures running { OnOk result (IsRunning task.now self.new) }
        ensures run { OnOk result
            (IsRun task.now.directed task.now.forbidden.now (times_over cycles order.now) (now_of task.now self.old) (now_of task.now self.new)) }
    {
        for _turn in 0..cycles {
            self.run_order(task, order)?;
        }
        Ok(())
    }
}
