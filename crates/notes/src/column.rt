// What a note's content is to fill.
ghost use Rattle.std.specs.Prelude.{◌^◌, ◌<◌, unsigned_abs};

// A wanted height, which may be negative, and the most that the last item may hang below it.
#[derive(Clone, Copy)]
pub struct Column {
    pub height: i64,
    pub depth: u32,
    ghost reach: { unsigned_abs height < 2 ^ 62 },
}
