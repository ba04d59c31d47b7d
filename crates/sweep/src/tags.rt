// The tags of a set.
ghost use Rattle.std.specs.Prelude.{◌≡◌, ◌^◌, ◌<◌, length};
ghost use Rattle.waymap.specs.Bits.{bit};
ghost use Rattle.sweep.specs.Clean.{wiped};

// The tags of the map's ways become zero, the lowest first, which trailing zeros give: no place is counted.
pub fn wipe(tags: &mut [u64], map: u16)
    requires { map < 2 ^ length tags.old }
    ensures { tags.new ≡ wiped (bit map) tags.old }
{
    let mut rest = map;
    while rest != 0 {
        let way = waymap::lowest_way(rest);
        tags[way] = 0;
        rest = rest & (rest - 1);
    }
}
