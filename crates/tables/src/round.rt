// One round on a table: what one use of each step gives from the table before it, added to that table.
ghost use Rattle.std.specs.Prelude.{◌≡◌, ℕ, ◌<◌, ◌≤◌, length, get_or};
ghost use Rattle.words.specs.Step.{head_in, use_step, use_steps};

use words::give::gain;

// One use of a step: what it gives from one table goes to its head's word in another.
fn use_step(step: usize, entities: usize, from: &[u32], to: &mut [u32])
    requires { head_in step < length to.old }
    ensures { to.new ≡ use_step entities from.now to.old step }
{
    let gained = gain(step, from, entities);
    let at = gained.place;
    to[at] = to[at] | gained.word;
}

// One round: one use of each step.
pub(crate) fn round(steps: &[usize], count: usize, entities: usize, from: &[u32], to: &mut [u32])
    requires { (count ≤ length steps.now) × ((m : ℕ) → m < count → head_in (get_or steps.now m 0) < length to.old) }
    ensures { to.new ≡ use_steps entities steps.now from.now to.old count }
{
    for step in &steps[..count] {
        use_step(*step, entities, from, to);
    }
}
