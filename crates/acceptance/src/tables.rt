//! The small tables of the cases, by letter, and what a result table begins with.

/// A link of cost 0 on the way, a way back that costs less than the way there, and one that isn't there.
pub const A: &[u8] = b"id,source,target,cost,reverse_cost\n\
    1,1,2,3,3\n\
    2,2,3,4,-1\n\
    3,1,3,10,1\n\
    4,3,4,0,0\n";

/// Three routes of cost 5 from 1 to 4: one has three links, and of the edges 1, 9 and 2, 3 the first are less.
pub const B: &[u8] = b"id,source,target,cost\n\
    0,1,5,1\n\
    5,5,6,1\n\
    6,6,4,3\n\
    1,1,2,2\n\
    9,2,4,3\n\
    2,1,3,1\n\
    3,3,4,4\n";

/// Cycles of cost 0 on the way.
pub const C: &[u8] = b"id,source,target,cost,reverse_cost\n\
    1,1,2,0,0\n\
    2,2,3,0,0\n\
    3,3,4,5,-1\n";

/// One row with two costs: in the undirected graph two parallel links each way.
pub const D: &[u8] = b"id,source,target,cost,reverse_cost\n\
    1,1,2,1,3\n";

/// Capacities: a flow of 2 goes over four edges, and one that went over the edge across first has to be taken back.
pub const H: &[u8] = b"id,source,target,capacity\n\
    1,1,2,1\n\
    2,1,3,1\n\
    3,2,3,1\n\
    4,2,4,1\n\
    5,3,4,1\n";

/// A way of two links, with the places of its vertices.
pub const PLACED: &[u8] = b"id,source,target,cost,reverse_cost,x1,y1,x2,y2\n\
    1,1,2,3,3,0,0,3,0\n\
    2,2,3,4,-1,3,0,3,4\n";

/// Table A as another tool writes it: columns in another order and one more, a quoted comma, CR LF, costs with a full
/// stop, and an empty field where there is no reverse cost.
pub const A_EXPORTED: &[u8] = b"name,target,source,id,reverse_cost,cost\r\n\
    Main St,2,1,1,3,3.0\r\n\
    \"Oak, N\",3,2,2,,4\r\n\
    x,3,1,3,1,10\r\n\
    y,4,3,4,0.0,0\r\n";

/// The same, cut within its last line.
pub const A_EXPORTED_AND_CUT: &[u8] = b"name,target,source,id,reverse_cost,cost\r\n\
    Main St,2,1,1,3,3.0\r\n\
    \"Oak, N\",3,2,2,,4\r\n\
    x,3,1,3,1,10\r\n\
    y,4,3";

/// The header line of a table of paths.
pub const PATHS: &str = "seq,path_seq,start_vid,end_vid,node,edge,cost,agg_cost\n";

/// The header line of a table of several paths for each pair.
pub const SEVERAL: &str = "seq,path_id,path_seq,start_vid,end_vid,node,edge,cost,agg_cost\n";

/// The header line of a value.
pub const VALUE: &str = "max_flow\n";

/// The header line of a table of flows.
pub const FLOWS: &str = "seq,edge,start_vid,end_vid,flow,residual_capacity\n";

/// The header line of a table of a cut.
pub const CUTS: &str = "seq,edge,start_vid,end_vid,capacity\n";

/// The header line of a table of components.
pub const PARTS: &str = "seq,component,node\n";

/// The header line of a table of blocks.
pub const CLASSES: &str = "seq,component,edge\n";

/// The header line of a table of vertices.
pub const NODES: &str = "node\n";

/// The header line of a table of edges.
pub const EDGES: &str = "edge\n";

/// The header line of a table of costs.
pub const COSTS: &str = "start_vid,end_vid,agg_cost\n";

/// The header line of a table of reached vertices.
pub const REACHES: &str = "seq,depth,start_vid,pred,node,edge,cost,agg_cost\n";

/// The header line of a table of what a contraction leaves.
pub const CONTRACTIONS: &str = "type,id,contracted_vertices,source,target,cost\n";
