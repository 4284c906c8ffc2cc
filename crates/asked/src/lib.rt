// Standard input that is a question and a bundle behind it: where the bundle starts.
#![tactic(auto)]

ghost use Rattle.std.specs.Prelude.{◌≡◌, ◌≤◌, min};

// Where the bundle starts: behind so many bytes, or at the end where there are fewer.
pub fn bundle_start(question: usize, size: usize) -> usize
    ensures { (result ≡ min question size) × (result ≤ size) }
{
    if size < question { size } else { question }
}
