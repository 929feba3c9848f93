//! The faces that a caller holds to be free.
ghost use Rattle.std.specs.Prelude.{◌≡◌, ℕ, Bool};

use half_edge_links::FixedFaceHandle;

/// Which inner faces are free.
///
/// ```
/// struct Floor {
///     free: Vec<bool>,
/// }
///
/// impl FreeFaces for Floor {
///     ghost free = { λ floor face. slice_index_or floor.free.items face false };
///
///     fn is_free(&self, face: FixedFaceHandle) -> bool {
///         self.free.get(face.index() as usize).copied().unwrap_or(false)
///     }
/// }
/// ```
pub trait FreeFaces {
    // The answers.
    ghost free: { Self → ℕ → Bool };

    /// Whether an inner face is free.
    fn is_free(&self, face: FixedFaceHandle) -> bool
        ensures { result ≡ free self.now face };
}
