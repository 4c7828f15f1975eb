// The answers taken one by one, as the filling call from number 0 writes them: for the tests from outside and the benchmark.
#![tactic(auto)]

ghost use Rattle.std.specs.Prelude.{◌≡◌, length};
ghost use Rattle.stretches.specs.Filling.{written, filled};
ghost use Rattle.meaning.specs.Finding.{list_of};

// Takes the stretches of a pattern in a log one by one into the cells, start then end, until none comes or no pair fits: how many they are.
#[unsafe(no_mangle)]
pub extern "C" fn finder_steps(pattern: &[u8], log: &[u8], cells: &mut [u32]) -> u64
    ensures value { result ≡ length (written (list_of pattern.now log.now) 0 cells.old) }
    ensures cells_after { cells.new ≡ filled (list_of pattern.now log.now) 0 cells.old }
{
    let mut f = finder::open(pattern, log).finder;
    for n in 0..cells.len() / 2 {
        let s = f.step(log);
        f = s.finder;
        let Some(x) = s.answer else {
            return n as u64;
        };
        cells[2 * n] = x.start;
        cells[2 * n + 1] = x.end;
    }
    cells.len() as u64 / 2
}
