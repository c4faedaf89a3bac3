// Laws of the documents of projects. They do nothing: each states what the definitions mean.
ghost use Rattle.std.specs.Prelude.{◌≡◌, Ok};
ghost use Rattle.eb_scene.specs.Projects.{Content};
ghost use Rattle.eb_scene.specs.Validity.{IsValid};
ghost use Rattle.eb_scene_text.specs.ProjectForm.{project_of};
ghost use Rattle.eb_scene_text.specs.ProjectText.{document};

/// The law that the document of a valid project, read under the project's schema, is that project.
pub fn documents_are_read_back()
    ensures { (g : Content) → IsValid g → project_of g.schema (document g) ≡ Ok g }
{}
