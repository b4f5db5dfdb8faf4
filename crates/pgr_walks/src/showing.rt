ghost use Rattle.std.specs.Prelude.{◌≡◌};
ghost use Rattle.pgr_walks.specs.Visit.{shown, Admits};

use crate::link::Link;
use crate::visitor::{LinkVisitor, Next};

/// Shows the visitor the links in order, up to and with the first at which it answers stop.
///
/// It needs that the visitor may be shown each of these links, with the meaning that it has after those
/// before. It takes no memory.
pub fn show<V: LinkVisitor>(links: &[Link], visitor: &mut V)
    requires { Admits V.after V.answer V.ready (V.meaning visitor.old) links.now }
    ensures { V.meaning visitor.new ≡ shown V.after V.answer (V.meaning visitor.old) links.now }
{
    for link in links {
        match visitor.see(*link) {
            Next::Go => {}
            Next::Stop => return,
        }
    }
}
