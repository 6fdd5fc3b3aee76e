// A case of the start rounds or the exact solver: what is lent, and what is answered. It stands at the head of its record; then come the
// matrix, where its cells aren't drawn, and the answered round, if there is one, 16 bits each.
use lending::range::Range;
use lending::reader::Reader;

// How the cells of a matrix are made: they stand in the record, are drawn one after another, or stay as they are.
#[derive(Clone, Copy)]
enum Cells {
    Stored,
    Drawn { range: Range, seed: u64 },
    Kept,
}

// Lent: n, and the lengths of matrix, round and table. Answered: the number, the words of the table that are written, and the time.
#[derive(Clone, Copy)]
pub struct Case {
    pub number: u32,
    pub n: usize,
    pub matrix: usize,
    pub round: usize,
    pub table: usize,
    pub used: usize,
    pub time: u32,
    cells: Cells,
}

impl Case {
    // The case that a record holds. A seed other than 0: the cells are drawn from low to high, if low is not above high and both fit 16 bits.
    pub fn read(record: &mut Reader) -> Case {
        let number = record.word();
        let n = record.size();
        let matrix = record.size();
        let round = record.size();
        let table = record.size();
        let used = record.size();
        let time = record.word();
        let low = record.word();
        let high = record.word();
        let seed = record.long();
        let cells = match Range::new(low, high) {
            _ if seed == 0 => Cells::Stored,
            Some(range) => Cells::Drawn { range, seed },
            None => Cells::Kept,
        };
        Case {
            number,
            n,
            matrix,
            round,
            table,
            used,
            time,
            cells,
        }
    }

    // Makes the matrix. After it the record stands at the answered round.
    pub fn make_matrix(&self, record: &mut Reader, matrix: &mut [u16]) {
        match self.cells {
            Cells::Stored => record.fill(matrix),
            Cells::Drawn { range, seed } => {
                let mut state = seed;
                for cell in matrix {
                    *cell = range.draw(&mut state);
                }
            }
            Cells::Kept => {}
        }
    }
}
