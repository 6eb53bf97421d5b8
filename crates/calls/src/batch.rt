// The commands of a planned call, and how they are written into the list. A plan has a batch of its family of calls.
ghost use Rattle.std.specs.Prelude.{ℕ, ◌+◌, ◌<◌, ◌≤◌, ◌≡◌, length};
ghost use Rattle.records.specs.declared.command.Command.{Command};
ghost use Rattle.walks.specs.Fill.{filled};
ghost use Rattle.calls.specs.Did.{record_of};

use records::command::{Command, Record};

// Where the commands go, how many they are, and which stands at place i.
pub trait Batch {
    ghost place_of: { Self → ℕ };

    ghost count_of: { Self → ℕ };

    ghost Allowed: { Self → ℕ → Type 0 };

    ghost command_at: { Self → ℕ → Command };

    fn at(&self) -> usize
        ensures { result ≡ place_of self.now };

    fn count(&self) -> usize
        ensures { result ≡ count_of self.now };

    fn command(&self, i: usize) -> Command
        requires { Allowed self.now i }
        ensures { result ≡ command_at self.now i };
}

// Writes the commands of a batch to their place.
pub fn record<B: Batch>(list: &mut [Record], batch: &B)
    requires fits { B.place_of batch.now + B.count_of batch.now ≤ length list.old }
    requires each { (i : ℕ) → i < B.count_of batch.now → B.Allowed batch.now i }
    ensures { list.new ≡ filled (λ i. record_of (B.command_at batch.now i)) list.old (B.place_of batch.now) (B.count_of batch.now) }
{
    let at = batch.at();
    let n = batch.count();
    for i in 0..n {
        list[at + i] = Record {
            command: batch.command(i),
        };
    }
}
