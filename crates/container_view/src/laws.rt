//! What holds of all containers. A call makes the law known to the proof of its caller, and does
//! nothing when it runs.

ghost use Rattle.container_view.specs.Bounds.{ReachLaw, GivenLaw, BoundsLaw};
ghost use Rattle.container_view.specs.Changes.{GrowthLaw, ChangeLaw, LifeLaw};
ghost use Rattle.container_view.specs.Choices.{ChainLaw, ChosenLaw};
ghost use Rattle.container_view.specs.Contents.{ContentsLaw};
ghost use Rattle.container_view.specs.Honest.{HonestStoreLaw};
ghost use Rattle.container_view.specs.Law.{ContainerLaw};
ghost use Rattle.container_view.specs.Lookups.{FileLaw};
ghost use Rattle.container_view.specs.Names.{NamesLaw};
ghost use Rattle.container_view.specs.Property.{PropertyLaw};
ghost use Rattle.container_view.specs.Restore.{AppliedLaw, RestoredLaw};
ghost use Rattle.container_view.specs.Sets.{SetLaw};
ghost use Rattle.container_view.specs.Stores.{StoreLaw};

/// What honest writers leave, every reader finds.
pub fn container_law()
    ensures { ContainerLaw }
{}

/// Honest files stay honest while the history grows.
pub fn growth_law()
    ensures { GrowthLaw }
{}

/// Honest files stay honest as one of them comes or goes.
pub fn change_law()
    ensures { ChangeLaw }
{}

/// At each moment of its life a container is faithful.
pub fn life_law()
    ensures { LifeLaw }
{}

/// A chain exists exactly where no version is missing, and each of its links is the best.
pub fn chain_law()
    ensures { ChainLaw }
{}

/// The chosen manifest is the best of those by which the version is advertised.
pub fn chosen_law()
    ensures { ChosenLaw }
{}

/// A chain exists exactly where it ends no later than what is reached.
pub fn reach_law()
    ensures { ReachLaw }
{}

/// A manifest gives each version between its bounds, and no other.
pub fn given_law()
    ensures { GivenLaw }
{}

/// The bounds are the least and the greatest advertised version.
pub fn bounds_law()
    ensures { BoundsLaw }
{}

/// Loads and clipped mutations leave what the files mean.
pub fn applied_law()
    ensures { AppliedLaw }
{}

/// A restore from honest files leaves the history's pairs.
pub fn restored_law()
    ensures { RestoredLaw }
{}

/// What is read for a version is the chosen manifest with its chain.
pub fn set_law()
    ensures { SetLaw }
{}

/// What a step on a store's files does to the folder of a container.
pub fn store_law()
    ensures { StoreLaw }
{}

/// What is found in a store's files after puts and deletions, and in which container it stands.
pub fn file_law()
    ensures { FileLaw }
{}

/// A property file holds a number exactly where it is the number's decimal text, at most 2^62.
pub fn property_law()
    ensures { PropertyLaw }
{}

/// The names of a container's files tell its chains.
pub fn names_law()
    ensures { NamesLaw }
{}

/// A container in a store is faithful where it is honest, and the steps that keep it honest.
pub fn honest_store_law()
    ensures { HonestStoreLaw }
{}

/// What writers of files gave says what they wrote.
pub fn contents_law()
    ensures { ContentsLaw }
{
    range_files::written_is_read();
    log_files::written_is_read();
    manifests::manifest_is_read();
}
