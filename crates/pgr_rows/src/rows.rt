use crate::line::{Piece, gather_line};
use crate::list::{ListLine, gather_list_line};
use crate::record::Record;
use pgr_outside::{Failed, Listed, Part, Sink};

/// A row of a table of paths: one link of a path, or its end.
#[derive(Clone, Copy, Debug, PartialEq, Eq)]
pub struct PathRow {
    /// The number of the row in the table, from 1.
    pub seq: u64,
    /// The number of the row in its path, from 1.
    pub path_seq: u64,
    /// The vertex where the path begins.
    pub start_vid: i64,
    /// The vertex where the path ends.
    pub end_vid: i64,
    /// The vertex where the link begins, or the end.
    pub node: i64,
    /// The edge of the link, or -1 at the end.
    pub edge: i64,
    /// The cost of the link, or 0 at the end.
    pub cost: u64,
    /// The cost of the path up to the vertex.
    pub agg_cost: u64,
}

impl Record for PathRow {
    ghost use Rattle.pgr_rows.specs.Text.{paths};

    ghost layout = { paths };

    fn header() -> &'static str {
        "seq,path_seq,start_vid,end_vid,node,edge,cost,agg_cost\n"
    }

    fn gather<O: Sink>(&self, out: &mut O, piece: &mut Piece) -> Result<(), Failed> {
        gather_line(
            out,
            piece,
            &[
                Part::Number(self.seq),
                Part::Number(self.path_seq),
                Part::Signed(self.start_vid),
                Part::Signed(self.end_vid),
                Part::Signed(self.node),
                Part::Signed(self.edge),
                Part::Number(self.cost),
                Part::Number(self.agg_cost),
            ],
        )
    }
}

/// A row of a table of several paths for each pair: one link of a path, or its end.
#[derive(Clone, Copy, Debug, PartialEq, Eq)]
pub struct KspRow {
    /// The number of the row in the table, from 1.
    pub seq: u64,
    /// The number of the path among those of its pair, from 1.
    pub path_id: u64,
    /// The number of the row in its path, from 1.
    pub path_seq: u64,
    /// The vertex where the path begins.
    pub start_vid: i64,
    /// The vertex where the path ends.
    pub end_vid: i64,
    /// The vertex where the link begins, or the end.
    pub node: i64,
    /// The edge of the link, or -1 at the end.
    pub edge: i64,
    /// The cost of the link, or 0 at the end.
    pub cost: u64,
    /// The cost of the path up to the vertex.
    pub agg_cost: u64,
}

impl Record for KspRow {
    ghost use Rattle.pgr_rows.specs.Text.{several_paths};

    ghost layout = { several_paths };

    fn header() -> &'static str {
        "seq,path_id,path_seq,start_vid,end_vid,node,edge,cost,agg_cost\n"
    }

    fn gather<O: Sink>(&self, out: &mut O, piece: &mut Piece) -> Result<(), Failed> {
        gather_line(
            out,
            piece,
            &[
                Part::Number(self.seq),
                Part::Number(self.path_id),
                Part::Number(self.path_seq),
                Part::Signed(self.start_vid),
                Part::Signed(self.end_vid),
                Part::Signed(self.node),
                Part::Signed(self.edge),
                Part::Number(self.cost),
                Part::Number(self.agg_cost),
            ],
        )
    }
}

/// A row of a table of costs: the cost from one vertex to another.
#[derive(Clone, Copy, Debug, PartialEq, Eq)]
pub struct CostRow {
    /// The vertex where the path begins.
    pub start_vid: i64,
    /// The vertex where the path ends.
    pub end_vid: i64,
    /// The cost of the path.
    pub agg_cost: u64,
}

impl Record for CostRow {
    ghost use Rattle.pgr_rows.specs.Text.{costs};

    ghost layout = { costs };

    fn header() -> &'static str {
        "start_vid,end_vid,agg_cost\n"
    }

    fn gather<O: Sink>(&self, out: &mut O, piece: &mut Piece) -> Result<(), Failed> {
        gather_line(
            out,
            piece,
            &[
                Part::Signed(self.start_vid),
                Part::Signed(self.end_vid),
                Part::Number(self.agg_cost),
            ],
        )
    }
}

/// A row of a table of components: one vertex and the name of its class.
#[derive(Clone, Copy, Debug, PartialEq, Eq)]
pub struct PartRow {
    /// The number of the row in the table, from 1.
    pub seq: u64,
    /// The least vertex of the class.
    pub component: i64,
    /// The vertex.
    pub node: i64,
}

impl Record for PartRow {
    ghost use Rattle.pgr_rows.specs.Text.{parts};

    ghost layout = { parts };

    fn header() -> &'static str {
        "seq,component,node\n"
    }

    fn gather<O: Sink>(&self, out: &mut O, piece: &mut Piece) -> Result<(), Failed> {
        gather_line(
            out,
            piece,
            &[
                Part::Number(self.seq),
                Part::Signed(self.component),
                Part::Signed(self.node),
            ],
        )
    }
}

/// A row of a table of blocks: one edge and the name of its block.
#[derive(Clone, Copy, Debug, PartialEq, Eq)]
pub struct ClassRow {
    /// The number of the row in the table, from 1.
    pub seq: u64,
    /// The least edge of the block.
    pub component: i64,
    /// The edge.
    pub edge: i64,
}

impl Record for ClassRow {
    ghost use Rattle.pgr_rows.specs.Text.{classes};

    ghost layout = { classes };

    fn header() -> &'static str {
        "seq,component,edge\n"
    }

    fn gather<O: Sink>(&self, out: &mut O, piece: &mut Piece) -> Result<(), Failed> {
        gather_line(
            out,
            piece,
            &[
                Part::Number(self.seq),
                Part::Signed(self.component),
                Part::Signed(self.edge),
            ],
        )
    }
}

/// An id alone. Tables of several kinds have such rows, and each brings a header line of its own.
impl Record for i64 {
    ghost use Rattle.pgr_rows.specs.Text.{ids};

    ghost layout = { ids };

    fn header() -> &'static str {
        ""
    }

    fn gather<O: Sink>(&self, out: &mut O, piece: &mut Piece) -> Result<(), Failed> {
        gather_line(out, piece, &[Part::Signed(*self)])
    }
}

/// A row of a table of reached vertices: a vertex within a distance of a start, with the link that leads to it.
#[derive(Clone, Copy, Debug, PartialEq, Eq)]
pub struct ReachRow {
    /// The number of the row in the table, from 1.
    pub seq: u64,
    /// The fewest links of a path of least cost from the start to the vertex.
    pub depth: u32,
    /// The start.
    pub start_vid: i64,
    /// The vertex where the link begins; the start itself at the start.
    pub pred: i64,
    /// The vertex.
    pub node: i64,
    /// The edge of the link, or -1 at the start.
    pub edge: i64,
    /// The cost of the link, or 0 at the start.
    pub cost: u64,
    /// The least cost from the start to the vertex.
    pub agg_cost: u64,
}

impl Record for ReachRow {
    ghost use Rattle.pgr_rows.specs.Text.{reaches};

    ghost layout = { reaches };

    fn header() -> &'static str {
        "seq,depth,start_vid,pred,node,edge,cost,agg_cost\n"
    }

    fn gather<O: Sink>(&self, out: &mut O, piece: &mut Piece) -> Result<(), Failed> {
        gather_line(
            out,
            piece,
            &[
                Part::Number(self.seq),
                Part::Number(u64::from(self.depth)),
                Part::Signed(self.start_vid),
                Part::Signed(self.pred),
                Part::Signed(self.node),
                Part::Signed(self.edge),
                Part::Number(self.cost),
                Part::Number(self.agg_cost),
            ],
        )
    }
}

/// A row of a table of what a contraction leaves: a vertex or a shortcut, with the vertices that it holds.
#[derive(Debug, Drop)]
pub enum ContractRow {
    /// A vertex that is left, of the type `v`; its source, target and cost are written -1.
    Vertex {
        /// The vertex.
        id: i64,
        /// The vertices that it holds, rising.
        inside: Listed<i64>,
    },
    /// A shortcut that is left, of the type `e`.
    Shortcut {
        /// Its id: -1 for the first, -2 for the second, and so on.
        id: i64,
        /// The vertices that it holds, rising.
        inside: Listed<i64>,
        /// The vertex where it begins.
        source: i64,
        /// The vertex where it leads.
        target: i64,
        /// What it costs.
        cost: u64,
    },
}

impl Record for ContractRow {
    ghost use Rattle.pgr_rows.specs.Text.{contractions};

    ghost layout = { contractions };

    fn header() -> &'static str {
        "type,id,contracted_vertices,source,target,cost\n"
    }

    fn gather<O: Sink>(&self, out: &mut O, piece: &mut Piece) -> Result<(), Failed> {
        match self {
            ContractRow::Vertex { id, inside } => {
                let line = ListLine {
                    kind: "v",
                    id: Part::Signed(*id),
                    ids: inside.as_slice(),
                    source: Part::Signed(-1),
                    target: Part::Signed(-1),
                    cost: Part::Signed(-1),
                };
                gather_list_line(out, piece, line)
            }
            ContractRow::Shortcut {
                id,
                inside,
                source,
                target,
                cost,
            } => {
                let line = ListLine {
                    kind: "e",
                    id: Part::Signed(*id),
                    ids: inside.as_slice(),
                    source: Part::Signed(*source),
                    target: Part::Signed(*target),
                    cost: Part::Number(*cost),
                };
                gather_list_line(out, piece, line)
            }
        }
    }
}

/// The value of a flow alone.
impl Record for u64 {
    ghost use Rattle.pgr_rows.specs.Text.{values};

    ghost layout = { values };

    fn header() -> &'static str {
        "max_flow\n"
    }

    fn gather<O: Sink>(&self, out: &mut O, piece: &mut Piece) -> Result<(), Failed> {
        gather_line(out, piece, &[Part::Number(*self)])
    }
}

/// A row of a table of flows: one link that carries flow.
#[derive(Clone, Copy, Debug, PartialEq, Eq)]
pub struct FlowRow {
    /// The number of the row in the table, from 1.
    pub seq: u64,
    /// The edge of the link.
    pub edge: i64,
    /// The vertex where the link begins.
    pub start_vid: i64,
    /// The vertex where the link leads.
    pub end_vid: i64,
    /// The flow over the link.
    pub flow: u64,
    /// The capacity of the link less its flow.
    pub residual_capacity: u64,
}

impl Record for FlowRow {
    ghost use Rattle.pgr_rows.specs.Text.{flows};

    ghost layout = { flows };

    fn header() -> &'static str {
        "seq,edge,start_vid,end_vid,flow,residual_capacity\n"
    }

    fn gather<O: Sink>(&self, out: &mut O, piece: &mut Piece) -> Result<(), Failed> {
        gather_line(
            out,
            piece,
            &[
                Part::Number(self.seq),
                Part::Signed(self.edge),
                Part::Signed(self.start_vid),
                Part::Signed(self.end_vid),
                Part::Number(self.flow),
                Part::Number(self.residual_capacity),
            ],
        )
    }
}

/// A row of a table of a cut: one link that leads out of its source side.
#[derive(Clone, Copy, Debug, PartialEq, Eq)]
pub struct CutRow {
    /// The number of the row in the table, from 1.
    pub seq: u64,
    /// The edge of the link.
    pub edge: i64,
    /// The vertex where the link begins.
    pub start_vid: i64,
    /// The vertex where the link leads.
    pub end_vid: i64,
    /// The capacity of the link.
    pub capacity: u64,
}

impl Record for CutRow {
    ghost use Rattle.pgr_rows.specs.Text.{cuts};

    ghost layout = { cuts };

    fn header() -> &'static str {
        "seq,edge,start_vid,end_vid,capacity\n"
    }

    fn gather<O: Sink>(&self, out: &mut O, piece: &mut Piece) -> Result<(), Failed> {
        gather_line(
            out,
            piece,
            &[
                Part::Number(self.seq),
                Part::Signed(self.edge),
                Part::Signed(self.start_vid),
                Part::Signed(self.end_vid),
                Part::Number(self.capacity),
            ],
        )
    }
}

/// The rows of a result table, with one variant for each kind of table.
#[derive(Debug, Drop)]
pub enum Rows {
    /// Paths, of the columns `seq,path_seq,start_vid,end_vid,node,edge,cost,agg_cost`.
    Paths(Listed<PathRow>),
    /// Components, of the columns `seq,component,node`.
    Parts(Listed<PartRow>),
    /// Blocks, of the columns `seq,component,edge`.
    Classes(Listed<ClassRow>),
    /// Vertices, of the column `node`.
    Nodes(Listed<i64>),
    /// Edges, of the column `edge`.
    Edges(Listed<i64>),
    /// Costs, of the columns `start_vid,end_vid,agg_cost`.
    Costs(Listed<CostRow>),
    /// Reached vertices, of the columns `seq,depth,start_vid,pred,node,edge,cost,agg_cost`.
    Reaches(Listed<ReachRow>),
    /// Several paths for each pair, of the columns `seq,path_id,path_seq,start_vid,end_vid,node,edge,cost,agg_cost`.
    Ksp(Listed<KspRow>),
    /// What a contraction leaves, of the columns `type,id,contracted_vertices,source,target,cost`.
    Contractions(Listed<ContractRow>),
    /// The value of a flow, in the one row of the column `max_flow`.
    Value(u64),
    /// Flows, of the columns `seq,edge,start_vid,end_vid,flow,residual_capacity`.
    Flows(Listed<FlowRow>),
    /// The links of a cut, of the columns `seq,edge,start_vid,end_vid,capacity`.
    Cuts(Listed<CutRow>),
}
