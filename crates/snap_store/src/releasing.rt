ghost use Rattle.std.specs.Prelude.{◌≡◌, ◌≤◌, ◌+◌, length};
ghost use Rattle.rec_bytes.specs.Format.{most_kept};
ghost use Rattle.snap_store.specs.Snaps.{AreLayers, IsLayer, IsPlaceOf, layer_of, layers_of};
ghost use Rattle.snap_store.specs.Layers.{joined, released};

use crate::layer::Layer;

// Takes the layer at a place away. What the next older one lacks goes there, where there is one.
pub(crate) fn take_away(layers: &mut Vec<Layer>, reader: u8, place: usize)
    requires right { AreLayers layers.old.items }
    requires place { IsPlaceOf reader (layers_of layers.old.items) place }
    ensures right { AreLayers layers.new.items }
    ensures layers { layers_of layers.new.items ≡ released reader (layers_of layers.old.items) }
{
    let gone = layers.remove(place);
    if place > 0 {
        let older = &mut layers[place - 1];
        join(older, gone);
    }
}

// Puts into a layer what it lacks of the next younger one.
fn join(older: &mut Layer, gone: Layer)
    requires older { IsLayer older.old }
    requires gone { IsLayer gone }
    requires few { length older.old.set.pairs + length gone.set.pairs ≤ most_kept }
    ensures right { IsLayer older.new }
    ensures joined { layer_of older.new ≡ joined (layer_of older.old) (layer_of gone) }
{
    let Layer { reader: _, mut set } = gone;
    set.merge(&older.set);
    older.set = set;
}
