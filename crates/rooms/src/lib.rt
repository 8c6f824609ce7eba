// The working room of a search, and its fixed values.
#![tactic(auto)]

ghost use Rattle.std.specs.Prelude.{◌≡◌, false, length, replicate};
ghost use Rattle.std.specs.Float.{inf};
ghost use Rattle.rooms.specs.Lending.{SameBuffers, lengths_in};

use block_checks::RoomLengths;

// Choice bytes, and two rows of costs. Each public function that takes it by `&mut` says in `SameBuffers` that it still refers to what was lent, so that a caller knows what that became.
#[derive(Drop)]
pub struct Room<'a> {
    pub choices: &'a mut [u8],
    pub row_a: &'a mut [f32],
    pub row_b: &'a mut [f32],
}

impl Room<'_> {
    pub fn lengths(&self) -> RoomLengths
        ensures { result ≡ lengths_in self.now }
    {
        RoomLengths {
            choices: self.choices.len(),
            row_a: self.row_a.len(),
            row_b: self.row_b.len(),
        }
    }

    pub fn clear_rows(&mut self)
        ensures same { SameBuffers self.old self.new }
        ensures choices { self.new.choices.now ≡ self.old.choices.now }
        ensures row_a { self.new.row_a.now ≡ replicate (length self.old.row_a.now) (inf false) }
        ensures row_b { self.new.row_b.now ≡ replicate (length self.old.row_b.now) (inf false) }
    {
        clear_row(self.row_a);
        clear_row(self.row_b);
    }
}

pub fn clear_choices(choices: &mut [u8])
    ensures { choices.new ≡ replicate (length choices.old) 255 }
{
    choices.fill(255);
}

fn clear_row(row: &mut [f32])
    ensures { row.new ≡ replicate (length row.old) (inf false) }
{
    row.fill(costs::infinity());
}
