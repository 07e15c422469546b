// Which predicates each action leaves untouched, as masks of literals.
#![tactic(auto)]

ghost use Rattle.std.specs.Prelude.{◌≡◌, ℕ, ◌+◌, ◌<◌, ◌≤◌, length, get_or};
ghost use Rattle.rows.specs.Bounds.{Read, no_row};
ghost use Rattle.grammar.specs.Programs.{Program};
ghost use Rattle.grammar.specs.WellFormed.{WellFormed};
ghost use Rattle.programs.specs.Images.{image_of};
ghost use Rattle.sets.specs.Sets.{with_pair};
ghost use Rattle.frame.specs.Masks.{clear_below, mask_by, masks_of};

use programs::Image;
use rows::Row;

// The row has a zero coefficient on every variable that is set.
fn is_clear(set: [bool; 8], row: Row) -> bool
    requires { Read row }
    ensures { result ≡ clear_below set row.coef 8 }
{
    let mut clear = true;
    for (marked, c) in set.iter().zip(&row.coef) {
        clear &= !*marked || *c == 0;
    }
    clear
}

// The mask, and both literals of predicate j.
fn with_both(mask: u32, j: usize) -> u32
    requires { j < 14 }
    ensures { result ≡ with_pair mask j (14 + j) }
{
    mask | (1 << j) | (1 << (14 + j))
}

// Both literals of each predicate that assignments to these variables leave untouched.
fn mask_by(predicates: &[Row], set: [bool; 8]) -> u32
    requires { (length predicates.now ≤ 14) × ((i : ℕ) → Read (get_or predicates.now i no_row)) }
    ensures { result ≡ mask_by predicates.now set (length predicates.now) }
{
    let mut mask = 0;
    for (j, row) in predicates.iter().enumerate() {
        if is_clear(set, *row) {
            mask = with_both(mask, j);
        }
    }
    mask
}

// For each action both literals of each predicate that it leaves untouched.
pub fn masks(image: Image) -> [u32; 16]
    requires { (p : Program) × WellFormed p × (image ≡ image_of p) }
    ensures { (p : Program) → image ≡ image_of p → result ≡ masks_of p }
{
    let mut masks = [0; 16];
    let predicates = &image.pred[..image.preds];
    // By index: while `masks` is lent to an iterator, no invariant can name it.
    for action in 0..image.actions {
        masks[action] = mask_by(predicates, image.shapes[action].set);
    }
    masks
}
