ghost use Rattle.manifests.specs.Laws.{ReadIsManifest, ManifestIsRead, WrittenIsManifest};

/// Law: what is read from a text is in the grammar of its name.
pub fn read_is_manifest()
    ensures { ReadIsManifest }
{}

/// Law: what is in the grammar is read.
pub fn manifest_is_read()
    ensures { ManifestIsRead }
{}

/// Law: the text that is written of a manifest is in the grammar.
pub fn written_is_manifest()
    ensures { WrittenIsManifest }
{}
