//! The device from which the files of a module are read.

ghost use Rattle.std.specs.Prelude.{◌≡◌, ◌||◌, ℕ, Bool, false, List, Option, IfOk, is_err, not, true};

use hcl_scan::ByteSource;
use tf_rules::Hashing;

/// A file can't be opened.
#[derive(Clone, Copy)]
pub struct OpenFault;

/// Files by name.
pub trait ModuleFiles {
    type Reader: ByteSource + Drop;

    /// The bytes of the file with a name, if the device tells them.
    ghost told: { Self → List ℕ → Option (List ℕ) };

    /// An opening has failed.
    ghost open_failed: { Self → Bool };

    /// A reader with a failed read was returned.
    ghost read_failed: { Self → Bool };

    /// A reader is out: it was opened, and not returned yet.
    ghost is_out: { Self → Bool };

    /// A reader of the file of this name, from its start.
    fn reader(&mut self, name: &str) -> Result<Self::Reader, OpenFault>
        requires opened { open_failed self.old ≡ false }
        requires read { read_failed self.old ≡ false }
        requires back { is_out self.old ≡ false }
        ensures fresh { IfOk result (λ r. Self.Reader.failed r ≡ false) }
        ensures bytes { IfOk result (λ r. Self.Reader.left r ≡ told self.old name.now) }
        ensures told { (other : List ℕ) → told self.new other ≡ told self.old other }
        ensures open_failed { open_failed self.new ≡ is_err result }
        ensures read_failed { read_failed self.new ≡ false }
        ensures out { is_out self.new ≡ not (is_err result) };

    /// Takes a reader back after its last read.
    fn give_back(&mut self, reader: Self::Reader)
        requires { is_out self.old ≡ true }
        ensures told { (other : List ℕ) → told self.new other ≡ told self.old other }
        ensures open_failed { open_failed self.new ≡ open_failed self.old }
        ensures read_failed { read_failed self.new
            ≡ (read_failed self.old || Self.Reader.failed reader) }
        ensures back { is_out self.new ≡ false };

    /// Whether an opening has failed or a failed reader was given back so far.
    fn has_failed(&self) -> bool
        ensures { result ≡ (open_failed self.now || read_failed self.now) };

    /// How names in these files are hashed. If others write the files, that should use a seed that they don't know. No
    /// answer depends on it.
    fn hashing(&self) -> Hashing {
        Hashing::with_shared_seed()
    }
}
