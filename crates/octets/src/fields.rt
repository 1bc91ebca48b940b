// Fields: numbers that stand one after the other, each at a width of its own, of at most 8 octets where it is read.
ghost use Rattle.std.specs.Prelude.{◌≡◌, true, ◌+◌, ◌≤◌, length};
ghost use Rattle.octets.specs.Octets.{put};
ghost use Rattle.octets.specs.Fields.{width_of, narrow, fields_at, fit, field_octets};

// How many octets fields of these widths take.
pub fn width(ws: &[usize]) -> usize
    requires { narrow ws.now ≡ true }
    ensures { result ≡ width_of ws.now }
{
    ws.iter().sum()
}

// Whether each number fits its width.
pub fn fit_fields(ws: &[usize], vs: &[u64]) -> bool
    requires { length ws.now ≡ length vs.now }
    ensures { result ≡ fit ws.now vs.now }
{
    ws.iter().zip(vs).all(|(w, v)| crate::fits(*v, *w))
}

// Reads the fields of widths ws from index at into vs.
pub fn read_fields(s: &[u8], at: usize, ws: &[usize], vs: &mut [u64])
    requires { (at + width_of ws.now ≤ length s.now) × (length ws.now ≡ length vs.old) × (narrow ws.now ≡ true) }
    ensures { vs.new ≡ fields_at at ws.now s.now }
{
    let mut from = at;
    for (i, w) in ws.iter().enumerate() {
        vs[i] = crate::read(s, from, *w);
        from += *w;
    }
}

// Writes the numbers vs at the widths ws from index at.
// Stays: over a zip of both it takes 326 instructions for ten fields where this takes 260.
pub fn write_fields(s: &mut [u8], at: usize, ws: &[usize], vs: &[u64])
    requires { (at + width_of ws.now ≤ length s.old) × (length ws.now ≡ length vs.now) }
    ensures { s.new ≡ put at (field_octets ws.now vs.now) s.old }
{
    let mut from = at;
    for (i, w) in ws.iter().enumerate() {
        crate::write(s, from, *w, vs[i]);
        from += *w;
    }
}
