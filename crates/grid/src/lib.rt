// The blocks of a map: how many, where each lies, and its neighbours along a pass. The one geometry of the library.
// What a function requires, its callers in this repository show.
#![tactic(auto)]

ghost use Rattle.std.specs.Prelude.{◌≡◌, ◌<◌, true};
ghost use Rattle.axis.specs.Axis.{direction_of};
ghost use Rattle.grid.specs.Grid.{block_count, block_extent, grid_kept, block_rows_of, block_columns_of, block_total, block_height, block_width, block_area, line_count, has_after, neighbour};
ghost use Rattle.grid.specs.Shapes.{InGrid, InBlocks, position_of, index_along, shape_of, shape_extent, shape_lines, line_of_blocks};

// The most rows and columns of a map, and the longest side of a block: `size_limit` and `side_limit` of specs/Grid.antt are the same
// numbers.
pub const SIZE_LIMIT: usize = 4096;

pub const SIDE_LIMIT: usize = 32;

// A map of rows and columns, cut into blocks of a side. Its ranges are no invariant of the type: a plan's record holds what a
// caller gave, and `check` of it is what a call is refused by.
#[derive(Clone, Copy)]
pub struct Grid {
    pub rows: usize,
    pub columns: usize,
    pub side: usize,
}

// Where a block stands among the blocks: its row and its column of blocks.
#[derive(Clone, Copy)]
pub struct Position {
    pub row: usize,
    pub column: usize,
}

// Where a block's first pixel stands in a row-major map, and the block's extent.
#[derive(Clone, Copy)]
pub struct BlockShape {
    pub start: usize,
    pub rows: usize,
    pub columns: usize,
}

// A block among the blocks in line with it, along a pass: its number, whether another follows it in map order, and how far
// apart their block numbers lie.
#[derive(Clone, Copy)]
struct BlockLine {
    index: usize,
    followed: bool,
    step: usize,
}

impl Grid {
    // Whether the sizes are in document 01's ranges.
    #[tactic(auto, unfolding(crate::specs::Grid::grid_kept))]
    pub fn check(self) -> bool
        ensures { result ≡ grid_kept self }
    {
        number::within(self.rows, SIZE_LIMIT)
            && number::within(self.columns, SIZE_LIMIT)
            && number::within(self.side, SIDE_LIMIT)
    }

    // The number of rows of blocks.
    pub fn block_rows(self) -> usize
        ensures { result ≡ block_rows_of self }
    {
        block_count(self.rows, self.side)
    }

    // The number of columns of blocks.
    pub fn block_columns(self) -> usize
        ensures { result ≡ block_columns_of self }
    {
        block_count(self.columns, self.side)
    }

    // The number of blocks.
    pub fn blocks(self) -> usize
        requires { grid_kept self ≡ true }
        ensures { result ≡ block_total self }
    {
        self.block_rows() * self.block_columns()
    }

    // Where block k stands among the blocks: one division by N gives both.
    pub fn position(self, k: usize) -> Position
        requires { grid_kept self ≡ true }
        ensures { result ≡ position_of self k }
    {
        let block_columns = self.block_columns();
        let row = k / block_columns;
        Position {
            row,
            column: k - row * block_columns,
        }
    }

    // The rows of the blocks in a row of blocks: the last may have fewer than the side; there are none past it.
    pub fn block_height(self, block_row: usize) -> usize
        ensures { result ≡ block_height self block_row }
    {
        block_extent(self.rows, self.side, block_row)
    }

    // The columns of the blocks in a column of blocks.
    pub fn block_width(self, block_column: usize) -> usize
        ensures { result ≡ block_width self block_column }
    {
        block_extent(self.columns, self.side, block_column)
    }

    // Where block k lies, and its extent. That k is a block of the map is asked of each number for one: a type for both would be
    // made at each call.
    pub fn block_shape(self, k: usize) -> BlockShape
        requires { InGrid self k }
        ensures { result ≡ shape_of self k }
    {
        let at = self.position(k);
        BlockShape {
            start: at.row * self.side * self.columns + at.column * self.side,
            rows: counted_extent(self.rows, self.side, at.row),
            columns: counted_extent(self.columns, self.side, at.column),
        }
    }

    // The area of block k.
    pub fn block_area(self, k: usize) -> usize
        requires { InGrid self k }
        ensures { result ≡ block_area self k }
    {
        let shape = self.block_shape(k);
        shape.rows * shape.columns
    }

    // A block follows where the map goes on: to tell that takes no count of the blocks in line.
    fn block_line(self, at: Position, pass: usize) -> BlockLine
        requires { InBlocks self at }
        ensures { result ≡ line_of_blocks self at pass }
    {
        let index = axis::along(pass, at.row, at.column);
        let length = axis::along(pass, self.rows, self.columns);
        BlockLine {
            index,
            followed: (index + 1) * self.side < length,
            step: axis::along(pass, self.block_columns(), 1),
        }
    }

    // The block that a pass comes from: above, below, left or right; none where the map ends.
    pub fn neighbour(self, k: usize, pass: usize) -> Option<usize>
        requires { InGrid self k }
        ensures { result ≡ neighbour self k pass }
    {
        let line = self.block_line(self.position(k), pass);
        if axis::is_backward(pass) {
            if line.followed {
                Some(k + line.step)
            } else {
                None
            }
        } else if 0 < line.index {
            Some(k - line.step)
        } else {
            None
        }
    }

    // Whether a pass goes on from a block to another, which then needs the block's strip of the pass.
    pub fn goes_on(self, at: Position, pass: usize) -> bool
        requires { InBlocks self at }
        ensures { result ≡ has_after (direction_of pass) (line_count self pass) (index_along at pass) }
    {
        let line = self.block_line(at, pass);
        if axis::is_backward(pass) {
            0 < line.index
        } else {
            line.followed
        }
    }
}

impl BlockShape {
    // The block's places along a pass,
    pub fn extent(self, pass: usize) -> usize
        ensures { result ≡ shape_extent self pass }
    {
        axis::along(pass, self.rows, self.columns)
    }

    // and its lines that the pass runs along.
    pub fn lines(self, pass: usize) -> usize
        ensures { result ≡ shape_lines self pass }
    {
        axis::across(pass, self.rows, self.columns)
    }
}

// How many blocks of a side cover a length; 0 where the side is 0.
fn block_count(length: usize, side: usize) -> usize
    ensures { result ≡ block_count length side }
{
    if side == 0 { 0 } else { length.div_ceil(side) }
}

// How much of a length a block has; 0 past the blocks that cover it.
fn block_extent(length: usize, side: usize, block: usize) -> usize
    ensures { result ≡ block_extent length side block }
{
    if block < block_count(length, side) {
        counted_extent(length, side, block)
    } else {
        0
    }
}

// The same for a block that is among them.
pub fn counted_extent(length: usize, side: usize, block: usize) -> usize
    requires { block < block_count length side }
    ensures { result ≡ block_extent length side block }
{
    side.min(length - block * side)
}
