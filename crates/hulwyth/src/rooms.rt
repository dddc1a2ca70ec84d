// The program's memory: arrays, since it allocates nothing. Each comes from a function, so that no proof of what is done
// with it holds its every word.
ghost use Rattle.std.specs.Prelude.{◌≡◌, ◌<◌, length};

// Words of cells, of lines of a listing, or of work.
pub fn words32<const N: usize>() -> [u32; N]
    requires { N < 4294967296 }
    ensures { N ≡ length result }
{
    [0; N]
}

// The packed words of 4,096 records.
pub fn words16() -> [u16; 16384]
    ensures { 16384 ≡ length result }
{
    [0; 16384]
}
