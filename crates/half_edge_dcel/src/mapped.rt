//! A mesh with other data on its undirected edges.
ghost use Rattle.std.specs.Prelude.{◌≡◌, ◌<◌, ◌≤◌, [], IfOk, IfErr, vec_len, vec_capacity};
ghost use Rattle.std.specs.List.{AllZip};
ghost use Rattle.half_edge_dcel.specs.Mapped.{IsMapped};

use crate::Dcel;

// Each item as `change` turns it, in `into`, which is empty and has room for all.
fn mapped<A: Drop, B, M: Fn(A) -> B>(items: Vec<A>, mut into: Vec<B>, change: &M) -> Vec<B>
    requires callable { M.IsAlwaysCallable change.now }
    requires empty { into.items ≡ [] }
    requires room { vec_len items ≤ vec_capacity into }
    ensures items { AllZip (λ a b. M.post change.now a b) items.items result.items }
    ensures capacity { vec_capacity result ≡ vec_capacity into }
{
    for item in items {
        into.push_reserved(change(item));
    }
    into
}

impl<V, DE, UE, F> Dcel<V, DE, UE, F> {
    /// The mesh with the data of each undirected edge as `change` turns them, and all else as it
    /// is. Where memory is refused, gives the mesh back as it was.
    pub fn map_undirected_edges<T, M: Fn(UE) -> T>(
        self,
        change: M,
    ) -> Result<Dcel<V, DE, T, F>, Self>
    where
        UE: Drop,
        requires { M.IsAlwaysCallable change }
        ensures mapped { IfOk result (IsMapped (λ a b. M.post change a b) self) }
        ensures refused { IfErr result (λ d. d ≡ self) }
    {
        let alloc = *self.undirected.allocator();
        let Ok(empty) = Vec::with_capacity(alloc, self.undirected.capacity()) else {
            return Err(self);
        };
        Ok(Dcel {
            links: self.links,
            directed: self.directed,
            undirected: mapped(self.undirected, empty, &change),
            outer: self.outer,
            faces: self.faces,
        })
    }
}
