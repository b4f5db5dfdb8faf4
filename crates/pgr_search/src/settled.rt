ghost use Rattle.std.specs.Prelude.{◌≡◌, ◌<◌, None, Some, All, IsNone, IfOk, length, replicate, slice_set, slice_index_or};
ghost use Rattle.pgr_search.specs.Settled.{IsListed};

use pgr_outside::NoMemory;
use pgr_walks::Label;
use std::alloc::Global;
use std::marker::Model;

/// The labels of the vertices that a search has settled, one place for each vertex number.
///
/// It keeps a list of them beside, so that to clear it takes no longer than to settle them.
#[derive(Drop)]
pub struct Settled {
    labels: Vec<Option<Label>>,
    order: Vec<u32>,
    count: usize,
}

impl Model for Settled {
    ghost use Rattle.std.specs.Prelude.{List, Option};
    ghost use Rattle.pgr_walks.specs.declared.label.Label.{Label};
    ghost use Rattle.pgr_search.specs.Settled.{IsListed};

    ghost Value = { List (Option Label) };

    ghost view = { λ settled. settled.labels.items };

    ghost invariant = { λ settled. IsListed settled.labels.items settled.order.items settled.count };
}

impl Settled {
    /// Takes all memory for the labels of `n` vertices; none of them is settled.
    ///
    /// `NoMemory` may come at any call.
    pub fn for_size(alloc: Global, n: u32) -> Result<Settled, NoMemory>
        ensures { IfOk result (λ settled. settled ≡ replicate n None) }
    {
        let labels = vec![in alloc; None; n as usize]?;
        let order = vec![in alloc; 0; n as usize]?;
        Ok(Settled {
            labels,
            order,
            count: 0,
        })
    }

    /// The label of a vertex, if it is settled.
    pub fn label(&self, v: u32) -> Option<Label>
        requires { v < length self.now }
        ensures { result ≡ slice_index_or self.now v None }
    {
        self.labels[v as usize]
    }

    /// Settles a vertex with a label.
    pub fn settle(&mut self, v: u32, label: Label)
        requires vertex { v < length self.old }
        requires waits { slice_index_or self.old v None ≡ None }
        ensures { self.new ≡ slice_set self.old v (Some label) }
    {
        self.labels[v as usize] = Some(label);
        self.order[self.count] = v;
        self.count += 1;
    }

    /// Makes no vertex settled.
    pub fn clear(&mut self)
        ensures none { All IsNone self.new }
        ensures size { length self.new ≡ length self.old }
    {
        forget(
            self.order.as_slice(),
            self.count,
            self.labels.as_mut_slice(),
        );
        self.count = 0;
    }
}

/// Takes away the labels of all vertices, which are those at so many places of the list.
fn forget(order: &[u32], count: usize, labels: &mut [Option<Label>])
    requires { IsListed labels.old order.now count }
    ensures { All IsNone labels.new }
{
    for i in 0..count {
        labels[order[i] as usize] = None;
    }
}
