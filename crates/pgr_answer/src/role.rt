ghost use Rattle.std.specs.Prelude.{◌≡◌, option_map};
ghost use Rattle.pgr_answer.specs.Roles.{roles as the_roles, name_of, file_name_of, kind_of, kind_of_edges};

use pgr_words::{Command, Function};
use std::fmt;

/// What a file is to a command. Files are read in the order of their roles here.
#[derive(Clone, Copy, Debug, PartialEq, Eq)]
pub enum Role {
    /// The table of edges.
    Edges,
    /// The table of points on edges.
    Points,
    /// The table of restrictions.
    Restrictions,
    /// The table of asked pairs.
    Combinations,
}

const ROLES: [Role; 4] = [
    Role::Edges,
    Role::Points,
    Role::Restrictions,
    Role::Combinations,
];

/// The roles, in the order in which their files are read.
pub(crate) fn roles() -> &'static [Role]
    ensures { result.now ≡ the_roles }
{
    &ROLES
}

impl Role {
    /// What the role is called: as the option that names its file.
    pub fn name(self) -> &'static str
        ensures { result.now ≡ name_of self }
    {
        match self {
            Role::Edges => "edges",
            Role::Points => "points",
            Role::Restrictions => "restrictions",
            Role::Combinations => "combinations",
        }
    }

    /// The name of the file that has this role to a command, if the command names one.
    pub(crate) fn file_name(self, command: &Command) -> Option<&str>
        ensures { option_map (λ name. name.now) result ≡ file_name_of command.now self }
    {
        match self {
            Role::Edges => Some(command.edges.as_str()),
            Role::Points => match &command.points {
                Some(name) => Some(name.as_str()),
                None => None,
            },
            Role::Restrictions => match &command.restrictions {
                Some(name) => Some(name.as_str()),
                None => None,
            },
            Role::Combinations => match &command.combinations {
                Some(name) => Some(name.as_str()),
                None => None,
            },
        }
    }
}

impl fmt::Display for Role {
    fn fmt<W: fmt::Write>(&self, f: &mut fmt::Formatter<W>) -> fmt::Result {
        f.write_str(self.name())
    }
}

/// What the file of a role is read as.
#[derive(Clone, Copy, Debug)]
pub(crate) enum Kind {
    /// A table of edges.
    Edges,
    /// A table of points on edges.
    Points,
    /// A table of restrictions.
    Restrictions,
    /// A table of asked pairs.
    Combinations,
    /// A table of edges with places.
    PlacedEdges,
    /// A table of edges with capacities.
    Capacities,
}

impl Kind {
    /// What the file of this role is read as by a function.
    pub(crate) fn of(function: Function, role: Role) -> Kind
        ensures { result ≡ kind_of function role }
    {
        match role {
            Role::Edges => Kind::of_edges(function),
            Role::Points => Kind::Points,
            Role::Restrictions => Kind::Restrictions,
            Role::Combinations => Kind::Combinations,
        }
    }

    /// What the file of edges is read as by a function.
    fn of_edges(function: Function) -> Kind
        ensures { result ≡ kind_of_edges function }
    {
        match function {
            Function::AStar => Kind::PlacedEdges,
            Function::MaxFlow => Kind::Capacities,
            Function::EdmondsKarp => Kind::Capacities,
            Function::MinCut => Kind::Capacities,
            _ => Kind::Edges,
        }
    }
}
