// The whole plan, worked out once into number slices: its figures (specs/Stored), its answers (specs/Store, specs/Filled), and the rows of its searches (specs/Costs).
#![tactic(auto)]

ghost use Rattle.std.specs.Prelude.{◌+◌, ◌*◌, ◌≤◌, length};
ghost use Rattle.figures_slices.specs.Costs.{Added};

// Adds the row of a task with this period behind n rows, where it costs something; says how many there are then.
pub fn add_cost(rows: &mut [u64], n: usize, period: u64, cost: u64) -> usize
    requires { n * 3 + 3 ≤ length rows.old }
    ensures { Added rows.old n period cost rows.new result }
{
    if cost == 0 {
        return n;
    }
    search_rows::push_row(rows, n, 0, period, cost);
    n + 1
}
