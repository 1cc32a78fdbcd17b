//! One node's end of a mesh.
ghost use Rattle.std.specs.Prelude.{◌≡◌, OnOk, IfOk, IfErr};
ghost use Rattle.std.specs.Borrow.{sem};

use crate::faults::{LinkFault, Unsent};
use crate::mesh::Mesh;
use crate::station::{Inbox, Post, Station};
use term::Node;

/// A node's end of a mesh, lent by it. The mesh is then as the end left it.
#[derive(Drop)]
pub struct MeshEnd<'a, L> {
    node: Node,
    mesh: &'a mut Mesh<L>,
}

impl<L: Drop> Mesh<L> {
    ghost use Rattle.std.specs.Prelude.{◌≡◌, true, OnOk, IfOk, IfErr};
    ghost use Rattle.std.specs.Borrow.{RestsIfErr};
    ghost use Rattle.link.specs.contracts.mesh.Mesh.{the_row};
    ghost use Rattle.link.specs.Faults.{IsStranger};
    ghost use Rattle.link.specs.MeshState.{has};
    ghost use Rattle.link.specs.MeshEnds.{node_of, mesh_of, lender_of};

    /// Lends the mesh as one node's end of it.
    pub fn end(&mut self, node: &Node) -> Result<MeshEnd<'_, L>, LinkFault>
        ensures* refused { sem 𝓛 (RestsIfErr (the_row L.row) self.entry lender_of result (λ mesh. mesh ≡ self.old)) }
        ensures same_reference { IfOk result (λ end. lender_of end ≡ self.entry.ghost_name) }
        ensures known { OnOk result (has node.now self.old ≡ true) }
        ensures node { IfOk result (λ end. node_of end ≡ node.now) }
        ensures mesh { IfOk result (λ end. mesh_of end ≡ self.old) }
        ensures err { IfErr result (λ fault. IsStranger fault node.now self.old) }
    {
        if self.place(node).is_none() {
            return Err(LinkFault::NoSuchNode);
        }
        Ok(MeshEnd {
            node: node.copy(),
            mesh: self,
        })
    }
}

impl<'a, L: Drop> Station for MeshEnd<'a, L> {
    type State = MeshEnd<'a, L>;

    ghost state = { λ end. end };
}

impl<'a, L: Drop> Post<L> for MeshEnd<'a, L> {
    ghost use Rattle.link.specs.MeshEnds.{Posts, Refuses};

    ghost posts = { Posts };

    ghost refuses = { Refuses };

    fn send(&mut self, to: &Node, letter: L) -> Result<(), Unsent<L>> {
        self.mesh.send(&self.node, to, letter)
    }
}

impl<'a, L: Drop> Inbox<L> for MeshEnd<'a, L> {
    ghost use Rattle.link.specs.MeshEnds.{Takes, Misses, Fails};

    ghost takes = { Takes };

    ghost misses = { Misses };

    ghost fails = { Fails };

    fn take(&mut self) -> Result<Option<(Node, L)>, LinkFault> {
        let Some(from) = self.mesh.first_sender(&self.node) else {
            return Ok(None);
        };
        let letter = self.mesh.deliver(&from, &self.node)?;
        Ok(Some((from, letter)))
    }
}
