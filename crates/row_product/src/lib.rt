// Row products: the three rows of a matrix of whole numbers times three numbers, exact.

#![tactic(auto)]

ghost use Rattle.std.specs.Prelude.{◌≡◌, ◌<◌};
ghost use Rattle.rules.specs.Matrix.{row_product};
ghost use Rattle.row_product.specs.Row.{Number, SmallRow, SmallRows, IsProducts, plain};

use rules::Rgb;

// The row i of a matrix times three numbers.
fn product(m: [[i64; 3]; 3], i: usize, x: i64, y: i64, z: i64) -> i64
    requires i_bound { i < 3 }
    requires small_row { SmallRow m i }
    requires red { Number x }
    requires green { Number y }
    requires blue { Number z }
    ensures { result ≡ row_product (plain m) i x y z }
{
    let c0 = m[i][0];
    let c1 = m[i][1];
    let c2 = m[i][2];
    c0 * x + c1 * y + c2 * z
}

// The three rows of a matrix times three numbers. (They come one by one, in registers: docs/DECISIONS.md.)
pub fn products(m: [[i64; 3]; 3], x: i64, y: i64, z: i64) -> Rgb<i64>
    requires small_rows { SmallRows m }
    requires red { Number x }
    requires green { Number y }
    requires blue { Number z }
    ensures { IsProducts m x y z result.red result.green result.blue }
{
    Rgb {
        red: product(m, 0, x, y, z),
        green: product(m, 1, x, y, z),
        blue: product(m, 2, x, y, z),
    }
}
