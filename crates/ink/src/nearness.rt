// How far a tone is from the values wanted, and which tone of a list is the nearest.
ghost use Rattle.std.specs.Prelude.{◌≡◌, ◌≤◌, length};
ghost use Rattle.ink.specs.Lists.{nearest_of};
ghost use Rattle.ink.specs.Nearness.{channel_weight, distance};
ghost use Rattle.ink.specs.Values.{Limited};

use tone::Tone;

// How much a channel counts. All count alike; other weights would be written here.
fn weight(channel: usize) -> u32
    ensures { result ≡ channel_weight channel }
{
    1
}

// The weighted sum of the squared differences of the channels.
pub(crate) fn distance_to<T: Tone>(wanted: &[i32; 3], ink: T) -> u32
    requires { Limited wanted.now }
    ensures { result ≡ distance T.Tone.count T.Tone.value wanted.now ink }
{
    let mut sum = 0;
    // counted: the number of the channel goes into three calls, in a chain as well; the square of `abs_diff` is slower
    for i in 0..T::channels() {
        let difference = (wanted[i] - i32::from(ink.channel(i))).unsigned_abs();
        sum += weight(i) * (difference * difference);
    }
    sum
}

// The number of the nearest tone, the lowest where several are as near; 0 if there is none.
pub(crate) fn nearest_ink<T: Tone>(wanted: &[i32; 3], inks: &[T]) -> u16
    requires { Limited wanted.now × (length inks.now ≤ 256) }
    ensures { result ≡ nearest_of (distance T.Tone.count T.Tone.value wanted.now) inks.now }
{
    let Some(first) = inks.first() else {
        return 0;
    };
    // a rule of the project: one pass from the first ink to the last, with the nearest so far
    let mut best = 0;
    let mut least = distance_to(wanted, *first);
    for (i, ink) in inks.iter().enumerate() {
        let distance = distance_to(wanted, *ink);
        if distance < least {
            // below 256
            best = i as u16;
            least = distance;
        }
    }
    best
}
