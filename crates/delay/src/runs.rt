// A ring's samples moved in at most two straight runs: up to the ring's end, and on from its start.
ghost use Rattle.std.specs.Prelude.{◌≡◌, ◌<◌, ◌≤◌, length};
ghost use Rattle.delay.specs.Ring.{read, write};

// Copies the samples from position `at` on (R3.8).
pub(crate) fn read_runs(ring: &[f32], at: usize, out: &mut [f32])
    requires { (at < length ring.now) × (length out.old ≤ length ring.now) }
    ensures { out.new ≡ read ring.now at (length out.old) }
{
    let end = ring.len() - at;
    if out.len() <= end {
        out.copy_from_slice(&ring[at..at + out.len()]);
        return;
    }
    let (front, rest) = out.split_at_mut(end);
    front.copy_from_slice(&ring[at..]);
    rest.copy_from_slice(&ring[..rest.len()]);
}

// Stores the samples `xs` from position `at` on (R3.9).
pub(crate) fn write_runs(ring: &mut [f32], at: usize, xs: &[f32])
    requires { (at < length ring.old) × (length xs.now ≤ length ring.old) }
    ensures { ring.new ≡ write ring.old at xs.now }
{
    let end = ring.len() - at;
    if xs.len() <= end {
        ring[at..at + xs.len()].copy_from_slice(xs);
        return;
    }
    let (front, rest) = xs.split_at(end);
    ring[at..].copy_from_slice(front);
    ring[..rest.len()].copy_from_slice(rest);
}
