// Many rows of bodies, six doubles to a row (Moon, then Sun): the first bad row, and the tides of all.
ghost use Rattle.std.specs.Prelude.{◌≡◌, ◌*◌, length};
ghost use Rattle.refusal.specs.Answered as A;
ghost use Rattle.series.specs.Series as S;
ghost use Rattle.series.specs.Steps as Y;

use mark::Vec3;
use refusal::{Refusal, Refused};
use tides::BodyVector;

// The Moon and the Sun of a row.
pub fn bodies_of(row: &[f64; 6]) -> (BodyVector, BodyVector)
    ensures { result ≡ (S.body_at row.now 0, S.body_at row.now 3) }
{
    let [a, b, c, d, e, f] = *row;
    (
        BodyVector { x: a, y: b, z: c },
        BodyVector { x: d, y: e, z: f },
    )
}

// The number of rows, or the first bad row and why it is.
pub fn scan(rows: &[[f64; 6]]) -> Result<usize, Refused>
    ensures { A.counted result ≡ Y.scan_of rows.now }
{
    'rows: {
        for (place, row) in rows.iter().enumerate() {
            for x in row {
                if !x.is_finite() {
                    break 'rows Err(Refused {
                        refusal: Refusal::BodyNotFinite,
                        place,
                    });
                }
            }
            let (moon, sun) = bodies_of(row);
            if let Err(refusal) = tides::check_bodies(moon, sun) {
                break 'rows Err(Refused { refusal, place });
            }
        }
        Ok(rows.len())
    }
}

// The tides of the rows, at the direction u, into three numbers to a row: zeros at a bad row.
pub fn fill(u: Vec3, rows: &[[f64; 6]], out: &mut [i64])
    requires { length out.old ≡ 3 * length rows.now }
    ensures { out.new ≡ Y.shifts_of u rows.now }
{
    for (i, row) in rows.iter().enumerate() {
        let (moon, sun) = bodies_of(row);
        let shift = tides::pair_at(u, moon, sun).unwrap_or(Vec3 { x: 0, y: 0, z: 0 });
        out[3 * i] = shift.x;
        out[3 * i + 1] = shift.y;
        out[3 * i + 2] = shift.z;
    }
}
